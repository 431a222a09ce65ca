// The device table: one device a line.
ghost use Rattle.std.specs.Prelude.{◌≡◌};
ghost use Rattle.refusal.specs.Refusal.{number_in};
ghost use Rattle.table.specs.Table.{table_lines, clashes, table_number, found_in, found_told};

use crate::Found;
use crate::line::{line_clashes, read_line};
use crate::pieces::split_once;
use device::Device;
use refusal::Refusal;

const LF: u8 = b'\n';

const MOST_LINES: usize = 64;

// Refuses a table that is malformed (15).
pub fn judge_table(text: &[u8]) -> Result<(), Refusal>
    ensures { number_in result ≡ table_number text.now }
{
    let mut rest = text;
    let mut lines: usize = 0;
    while let Some((line, after)) = split_once(rest, LF) {
        let Some(read) = read_line(line) else {
            return Err(Refusal::Table);
        };
        if clash_after(after, read.device) {
            return Err(Refusal::Table);
        }
        rest = after;
        lines += 1;
        if MOST_LINES < lines {
            return Err(Refusal::Table);
        }
    }
    if lines < 1 || !rest.is_empty() {
        return Err(Refusal::Table);
    }
    Ok(())
}

// Whether a line of a text gives a device that clashes with this one.
fn clash_after(text: &[u8], d: Device) -> bool
    ensures { result ≡ clashes d (table_lines text.now) }
{
    let mut rest = text;
    while let Some((line, after)) = split_once(rest, LF) {
        if line_clashes(line, d) {
            return true;
        }
        rest = after;
    }
    false
}

// The record that an ID fits; 15 for a malformed table, 16 for an ID that fits none of it.
pub fn find_device(text: &[u8], id: u16) -> Result<Found, Refusal>
    ensures { found_told result ≡ found_in text.now id }
{
    judge_table(text)?;
    let mut rest = text;
    while let Some((line, after)) = split_once(rest, LF) {
        let read = read_line(line).unwrap();
        if device::fits(read.device, id) {
            return Ok(Found {
                device: read.device,
                name_at: text.len() - rest.len(),
                name_len: read.name,
            });
        }
        rest = after;
    }
    Err(Refusal::UnknownId)
}
