// Requests on a table and a sheet, opened, and on a sheet that is printed.
use ask::{Answer, Fields, Wrong};
use board::{MOST_READING, Unopened};
use table::Found;

pub(crate) fn find_record(fields: &mut Fields, out: &mut Answer) -> Result<(), Wrong> {
    let table = fields.bytes()?;
    let sheet = fields.bytes()?;
    fields.end()?;
    put_opened(out, board::find_record(table, sheet))
}

pub(crate) fn open_record(fields: &mut Fields, out: &mut Answer) -> Result<(), Wrong> {
    let table = fields.bytes()?;
    let sheet = fields.bytes()?;
    fields.end()?;
    put_opened(out, board::open_record(table, sheet))
}

// The reading's array is filled with one word before.
pub(crate) fn open_board(fields: &mut Fields, out: &mut Answer) -> Result<(), Wrong> {
    let table = fields.bytes()?;
    let sheet = fields.bytes()?;
    let fill = fields.number()?;
    fields.end()?;
    let mut reading = [fill; MOST_READING];
    put_opened(out, board::open_board(table, sheet, &mut reading))?;
    out.words(&reading)
}

// The number, the record, and where its name stands.
fn put_opened(out: &mut Answer, opened: Result<Found, Unopened>) -> Result<(), Wrong> {
    let (number, found) = match opened {
        Ok(found) => (0, found),
        Err(unopened) => (unopened.refusal.number(), unopened.found),
    };
    out.number(number)?;
    out.found(Some(found))
}

pub(crate) fn print_sheet(fields: &mut Fields, out: &mut Answer) -> Result<(), Wrong> {
    let device = fields.device()?;
    let id = fields.number()?;
    let reading = fields.words()?;
    let text = fields.bytes()?;
    fields.end()?;
    out.number(board::print_sheet(device, id, reading, text))?;
    out.bytes(text)
}
