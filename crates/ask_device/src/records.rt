// Requests on device records, the device table, and the kinds of words and lists.
use ask::{Answer, Fields, Wrong};
use device::{Device, Sound};
use refusal::number_in;
use table::Found;

pub(crate) fn judge(fields: &mut Fields, out: &mut Answer) -> Result<(), Wrong> {
    let d = fields.device()?;
    fields.end()?;
    out.number(number_in(&device::judge(d)))
}

pub(crate) fn judge_table(fields: &mut Fields, out: &mut Answer) -> Result<(), Wrong> {
    let table = fields.bytes()?;
    fields.end()?;
    out.number(number_in(&table::judge_table(table)))
}

// The number, the record, and where its name stands.
pub(crate) fn find_device(fields: &mut Fields, out: &mut Answer) -> Result<(), Wrong> {
    let table = fields.bytes()?;
    let id = fields.number()?;
    fields.end()?;
    let found = table::find_device(table, id);
    out.number(number_in(&found))?;
    out.found(found.ok())
}

// Whether a list is of a kind, for a device of so many words.
pub(crate) fn is_so<K: Fn(u16, &[u16]) -> bool>(
    fields: &mut Fields,
    out: &mut Answer,
    kind: K,
) -> Result<(), Wrong>
    requires { K.IsAlwaysCallable kind }
{
    let words = fields.number()?;
    let list = fields.words()?;
    fields.end()?;
    out.number(u8::from(kind(words, list)))
}

pub(crate) fn programmable(fields: &mut Fields, out: &mut Answer) -> Result<(), Wrong> {
    let words = fields.number()?;
    let i = fields.number()?;
    fields.end()?;
    out.number(u8::from(device::programmable(words, i)))
}

pub(crate) fn fits(fields: &mut Fields, out: &mut Answer) -> Result<(), Wrong> {
    let d = fields.device()?;
    let word = fields.number()?;
    fields.end()?;
    out.number(u8::from(device::fits(d, word)))
}

pub(crate) fn under_mask(fields: &mut Fields, out: &mut Answer) -> Result<(), Wrong> {
    let d = fields.device()?;
    let i = fields.number()?;
    let new = fields.number()?;
    let old = fields.number()?;
    fields.end()?;
    out.number(device::under_mask(d, i, new, old))
}

pub(crate) fn is_name(fields: &mut Fields, out: &mut Answer) -> Result<(), Wrong> {
    let text = fields.bytes()?;
    fields.end()?;
    out.number(u8::from(table::is_name(text)))
}

// The number, and the record that the value holds; zeros beside a refusal.
pub(crate) fn sound_of(fields: &mut Fields, out: &mut Answer) -> Result<(), Wrong> {
    let d = fields.device()?;
    fields.end()?;
    let sound = Sound::of(d);
    out.number(number_in(&sound))?;
    let held = match sound {
        Ok(s) => s.device,
        Err(_) => NO_DEVICE,
    };
    for n in [
        held.id,
        held.words,
        held.row,
        held.mask1,
        held.mask2,
        held.idmask,
    ] {
        out.number(n)?;
    }
    Ok(())
}

// The name that stands at a place of a table. The record beside that place is no part of the answer.
pub(crate) fn name_of(fields: &mut Fields, out: &mut Answer) -> Result<(), Wrong> {
    let table = fields.bytes()?;
    let name_at = fields.number()?;
    let name_len = fields.number()?;
    fields.end()?;
    let found = Found {
        device: NO_DEVICE,
        name_at,
        name_len,
    };
    out.bytes(found.name(table))
}

const NO_DEVICE: Device = Device {
    id: 0,
    words: 0,
    row: 0,
    mask1: 0,
    mask2: 0,
    idmask: 0,
};
