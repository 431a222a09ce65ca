// Requests on wanted words, on where they differ and rise, and on what the planners refuse.
use aim::Aim;
use ask::{Answer, Fields, Wrong};
use refusal::number_in;

// The three fields of an aim.
fn aim_of<'a>(fields: &mut Fields<'a>) -> Result<Aim<'a>, Wrong> {
    Ok(Aim {
        device: fields.device()?,
        image: fields.words()?,
        reading: fields.words()?,
    })
}

pub(crate) fn wanted(fields: &mut Fields, out: &mut Answer) -> Result<(), Wrong> {
    let aim = aim_of(fields)?;
    let i = fields.number()?;
    fields.end()?;
    out.number(aim.wanted(i))
}

// Whether something is so of a row of words.
pub(crate) fn row_is_so<Q: Fn(&Aim, u16) -> bool>(
    fields: &mut Fields,
    out: &mut Answer,
    question: Q,
) -> Result<(), Wrong>
    requires { Q.IsAlwaysCallable question }
{
    let aim = aim_of(fields)?;
    let k = fields.number()?;
    fields.end()?;
    out.number(u8::from(question(&aim, k)))
}

// Whether something is so of the user IDs.
pub(crate) fn id_is_so<Q: Fn(&Aim) -> bool>(
    fields: &mut Fields,
    out: &mut Answer,
    question: Q,
) -> Result<(), Wrong>
    requires { Q.IsAlwaysCallable question }
{
    let aim = aim_of(fields)?;
    fields.end()?;
    out.number(u8::from(question(&aim)))
}

// A number other than 0 asks for all user IDs.
pub(crate) fn is_written(fields: &mut Fields, out: &mut Answer) -> Result<(), Wrong> {
    let aim = aim_of(fields)?;
    let k = fields.number()?;
    let all: u16 = fields.number()?;
    fields.end()?;
    out.number(u8::from(aim.is_written(k, all != 0)))
}

pub(crate) fn update_refusal(fields: &mut Fields, out: &mut Answer) -> Result<(), Wrong> {
    let aim = aim_of(fields)?;
    fields.end()?;
    out.number(number_in(&aim.update_refusal()))
}

pub(crate) fn fresh_refusal(fields: &mut Fields, out: &mut Answer) -> Result<(), Wrong> {
    let d = fields.device()?;
    let image = fields.words()?;
    let id = fields.number()?;
    fields.end()?;
    out.number(number_in(&aim::fresh_refusal(d, image, id)))
}
