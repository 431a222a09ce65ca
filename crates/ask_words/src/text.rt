// Requests on hex and decimal text, and on where a byte stands.
use ask::{Answer, Fields, Wrong};
use std::num::TryFromIntError;

// The value of a character as a digit; 16 if it is none.
pub(crate) fn digit<V: Fn(u8) -> Option<u8>>(
    fields: &mut Fields,
    out: &mut Answer,
    value: V,
) -> Result<(), Wrong>
    requires { V.IsAlwaysCallable value }
{
    let c = fields.number()?;
    fields.end()?;
    out.number(value(c).unwrap_or(16))
}

pub(crate) fn digits(fields: &mut Fields, out: &mut Answer) -> Result<(), Wrong> {
    fields.end()?;
    out.bytes(&numerals::hex::digits())
}

// The value of the digits at a place; one past the largest where they do not stand there.
pub(crate) fn value<V: Fn(&[u8], usize) -> u32>(
    fields: &mut Fields,
    out: &mut Answer,
    value: V,
) -> Result<(), Wrong>
    requires { V.IsAlwaysCallable value }
{
    let text = fields.bytes()?;
    let at = fields.number()?;
    fields.end()?;
    out.number(value(text, at))
}

// The text after a value was stored at a place.
pub(crate) fn store<T: Drop + TryFrom<u64, Error = TryFromIntError>, S: Fn(&mut [u8], usize, T)>(
    fields: &mut Fields,
    out: &mut Answer,
    store: S,
) -> Result<(), Wrong>
    requires { S.IsAlwaysCallable store }
{
    let text = fields.bytes()?;
    let at = fields.number()?;
    let value = fields.number()?;
    fields.end()?;
    store(text, at, value);
    out.bytes(text)
}

// The number of a decimal text; one past the bound if it is none.
pub(crate) fn decimal(fields: &mut Fields, out: &mut Answer) -> Result<(), Wrong> {
    let text = fields.bytes()?;
    let bound = fields.number()?;
    fields.end()?;
    out.number(numerals::decimal::read(text, bound).map_or(u64::from(bound) + 1, u64::from))
}

pub(crate) fn find(fields: &mut Fields, out: &mut Answer) -> Result<(), Wrong> {
    let text = fields.bytes()?;
    let from = fields.number()?;
    let to = fields.number()?;
    let mark = fields.number()?;
    fields.end()?;
    out.number(marks::find(text, from, to, mark))
}
