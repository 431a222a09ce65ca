// The program dump.
ghost use Rattle.std.specs.Prelude.{◌≡◌, ◌≤◌, IfOk, length};
ghost use Rattle.refusal.specs.Refusal.{number_in};
ghost use Rattle.print.specs.Print.{Prints};
ghost use Rattle.reports.specs.Dump.{dump_text};
ghost use Rattle.reports.specs.LawsDump.{most_dump, dump_number, Dumped};

use board::MOST_PROGRAM;
use device::{IDS, READING_TAIL};
use refusal::Refusal;
use words::NOT_GIVEN;

// The longest text: 44 bytes for eight program words, and 88.
const MOST_DUMP: usize = 44 * ((MOST_PROGRAM as usize) / 8) + 88;

// Prints a board's sheet as HEX text as far as there is room, and answers the length of the whole text. A protected sheet has no program words to tell of.
pub fn dump(table: &[u8], sheet: &[u8], out: &mut [u8]) -> usize
    ensures { (Prints (dump_text table.now sheet.now) out.old result out.new) × (result ≤ most_dump) }
{
    let mut hex = [0u8; MOST_DUMP];
    match hex_of(table, sheet, &mut hex) {
        Ok(length) => print::text(out, &hex[..length]),
        Err(refusal) => print::refusal(out, refusal.number(), 0, 0),
    }
}

// Writes a board's sheet as HEX text.
#[tactic(auto, using(crate::specs::LawsDump::dump_unopened))]
fn hex_of(table: &[u8], sheet: &[u8], hex: &mut [u8]) -> Result<usize, Refusal>
    requires { length hex.old ≡ most_dump }
    ensures number { number_in result ≡ dump_number table.now sheet.now }
    ensures text { IfOk result (λ n. Dumped table.now sheet.now n hex.new) }
{
    let mut image = [0u16; board::MOST_READING];
    let found = board::open_board(table, sheet, &mut image)?;
    let device = found.device;
    let count = (device.words as usize) + READING_TAIL;
    if device::is_protected(device.words, &image[..count]) {
        return Err(Refusal::ProtectedBoard);
    }
    // the reading is an image but for the three words that are never given
    let first = (device.words as usize) + IDS;
    image[first..first + 3].fill(NOT_GIVEN);
    hexwrite::write_hex(device, &image[..count], hex)
}
