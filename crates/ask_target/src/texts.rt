// Requests on the lines of a text, that a reader of them is lent for.
use ask::{Answer, Fields, Wrong};

pub(crate) fn first_number(fields: &mut Fields, out: &mut Answer) -> Result<(), Wrong> {
    let text = fields.bytes()?;
    fields.end()?;
    out.number(lent::first_number(text))
}

pub(crate) fn third_line(fields: &mut Fields, out: &mut Answer) -> Result<(), Wrong> {
    let text = fields.bytes()?;
    fields.end()?;
    let l = lent::third_line(text);
    out.number(l.start)?;
    out.number(l.stop)?;
    out.number(l.at)?;
    out.number(l.line)
}
