// Requests on texts that are printed to a lent buffer. Each is answered by the whole text's length and the whole buffer.
use ask::{Answer, Fields, Wrong};
use words::WordAddress;

pub(crate) fn refusal(fields: &mut Fields, out: &mut Answer) -> Result<(), Wrong> {
    let number = fields.number()?;
    let line = fields.number()?;
    let column = fields.number()?;
    let text = fields.bytes()?;
    fields.end()?;
    out.number(print::refusal(text, number, line, column))?;
    out.bytes(text)
}

pub(crate) fn sum(fields: &mut Fields, out: &mut Answer) -> Result<(), Wrong> {
    let word = fields.number()?;
    let text = fields.bytes()?;
    fields.end()?;
    out.number(print::sum(text, word))?;
    out.bytes(text)
}

pub(crate) fn verdict(fields: &mut Fields, out: &mut Answer) -> Result<(), Wrong> {
    let number = fields.number()?;
    let address = WordAddress(fields.number()?);
    let count = fields.number()?;
    let text = fields.bytes()?;
    fields.end()?;
    out.number(print::verdict(text, number, address, count))?;
    out.bytes(text)
}

pub(crate) fn text(fields: &mut Fields, out: &mut Answer) -> Result<(), Wrong> {
    let whole = fields.bytes()?;
    let text = fields.bytes()?;
    fields.end()?;
    out.number(print::text(text, whole))?;
    out.bytes(text)
}
