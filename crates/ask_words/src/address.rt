// Requests on addresses and on lists of words.
use ask::{Answer, Fields, Wrong};
use words::{ByteAddress, WordAddress};

pub(crate) fn double(fields: &mut Fields, out: &mut Answer) -> Result<(), Wrong> {
    let a = WordAddress(fields.number()?);
    fields.end()?;
    out.number(words::address::double(a).0)
}

pub(crate) fn halve(fields: &mut Fields, out: &mut Answer) -> Result<(), Wrong> {
    let b = ByteAddress(fields.number()?);
    fields.end()?;
    put_place(out, words::address::halve(b))
}

pub(crate) fn entry_of(fields: &mut Fields, out: &mut Answer) -> Result<(), Wrong> {
    let base = WordAddress(fields.number()?);
    let words = fields.number()?;
    let tail = fields.number()?;
    let a = WordAddress(fields.number()?);
    fields.end()?;
    out.number(words::address::entry_of(base, words, tail, a))
}

pub(crate) fn address_of(fields: &mut Fields, out: &mut Answer) -> Result<(), Wrong> {
    let base = WordAddress(fields.number()?);
    let words = fields.number()?;
    let tail = fields.number()?;
    let entry = fields.number()?;
    fields.end()?;
    put_place(out, words::address::address_of(base, words, tail, entry))
}

// 1 and the address, or 0 and 0.
fn put_place(out: &mut Answer, place: Option<WordAddress>) -> Result<(), Wrong> {
    out.number(u8::from(place.is_some()))?;
    out.number(place.map_or(0, |a| a.0))
}

pub(crate) fn is_words(fields: &mut Fields, out: &mut Answer) -> Result<(), Wrong> {
    let list = fields.words()?;
    let n = fields.number()?;
    fields.end()?;
    out.number(u8::from(words::list::is_words(list, n)))
}
