// The program checksum.
ghost use Rattle.std.specs.Prelude.{◌≡◌, ◌≤◌, IfOk};
ghost use Rattle.refusal.specs.Refusal.{number_in};
ghost use Rattle.judge.specs.Checksum.{checksum_of};
ghost use Rattle.print.specs.Print.{Prints};
ghost use Rattle.board.specs.Open.{record_of, board_number, board_reading};
ghost use Rattle.reports.specs.Programs.{checksum_text};

use device::READING_TAIL;
use refusal::Refusal;

// Prints the checksum of a board's sheet as far as there is room, and answers the length of the whole text.
pub fn checksum(table: &[u8], sheet: &[u8], out: &mut [u8]) -> usize
    ensures { (Prints (checksum_text table.now sheet.now) out.old result out.new) × (result ≤ 64) }
{
    match sum_of(table, sheet) {
        Ok(sum) => print::sum(out, sum),
        Err(refusal) => print::refusal(out, refusal.number(), 0, 0),
    }
}

// The checksum of a board's sheet.
fn sum_of(table: &[u8], sheet: &[u8]) -> Result<u16, Refusal>
    ensures number { number_in result ≡ board_number table.now sheet.now }
    ensures sum { IfOk result (λ n. n ≡ checksum_of (record_of table.now sheet.now) (board_reading table.now sheet.now)) }
{
    let mut reading = [0u16; board::MOST_READING];
    let found = board::open_board(table, sheet, &mut reading)?;
    let count = (found.device.words as usize) + READING_TAIL;
    judge::checksum(found.device, &reading[..count])
}
