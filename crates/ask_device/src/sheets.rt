// Requests on board sheets.
use ask::{Answer, Fields, Wrong};
use refusal::{Refusal, number_in};

pub(crate) fn read_sheet(fields: &mut Fields, out: &mut Answer) -> Result<(), Wrong> {
    let d = fields.device()?;
    let name = fields.bytes()?;
    let text = fields.bytes()?;
    let reading = fields.words()?;
    fields.end()?;
    out.number(number_in(&sheet::read_sheet(d, name, text, reading)))?;
    out.words(reading)
}

pub(crate) fn read_id(fields: &mut Fields, out: &mut Answer) -> Result<(), Wrong> {
    let text = fields.bytes()?;
    fields.end()?;
    out.told(sheet::read_id(text))
}

pub(crate) fn write_sheet(fields: &mut Fields, out: &mut Answer) -> Result<(), Wrong> {
    let d = fields.device()?;
    let reading = fields.words()?;
    let text = fields.bytes()?;
    fields.end()?;
    out.told(sheetwrite::write_sheet(d, reading, text))?;
    out.bytes(text)
}

pub(crate) fn write_new_sheet(fields: &mut Fields, out: &mut Answer) -> Result<(), Wrong> {
    let d = fields.device()?;
    let name = fields.bytes()?;
    let reading = fields.words()?;
    let text = fields.bytes()?;
    fields.end()?;
    out.told(sheetwrite::write_new_sheet(d, name, reading, text))?;
    out.bytes(text)
}

// A sheet moved to either form.
pub(crate) fn move_sheet<M: Fn(&[u8], &[u8], &mut [u8]) -> Result<usize, Refusal>>(
    fields: &mut Fields,
    out: &mut Answer,
    moved: M,
) -> Result<(), Wrong>
    requires { M.IsAlwaysCallable moved }
{
    let table = fields.bytes()?;
    let sheet = fields.bytes()?;
    let text = fields.bytes()?;
    fields.end()?;
    out.told(moved(table, sheet, text))?;
    out.bytes(text)
}
