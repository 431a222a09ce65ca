// The program verify.
ghost use Rattle.std.specs.Prelude.{◌≡◌, ◌≤◌, IfOk};
ghost use Rattle.refusal.specs.Refusal.{number_in};
ghost use Rattle.print.specs.Print.{Prints};
ghost use Rattle.reports.specs.Programs.{verify_number, verify_text};
ghost use Rattle.reports.specs.LawsPrograms.{Judged};

use device::READING_TAIL;
use judge::Verdict;
use refusal::Refusal;
use words::WordAddress;

// Prints how a board's sheet differs from the wanted one as far as there is room, and answers the length of the whole text.
pub fn verify(table: &[u8], sheet: &[u8], wanted: &[u8], out: &mut [u8]) -> usize
    ensures { (Prints (verify_text table.now sheet.now wanted.now) out.old result out.new) × (result ≤ 64) }
{
    match verdict_of(table, sheet, wanted) {
        Ok(Verdict::Same) => print::verdict(out, 0, WordAddress(0), 0),
        Ok(Verdict::Differs { address, count }) => print::verdict(out, 40, address, count as u32),
        Ok(Verdict::Protected) => print::verdict(out, 41, WordAddress(0), 0),
        Err(refusal) => print::refusal(out, refusal.number(), 0, 0),
    }
}

// How a board's sheet differs from the wanted one, under the same record and name.
#[tactic(auto, using(crate::specs::LawsPrograms::verify_unopened))]
fn verdict_of(table: &[u8], sheet: &[u8], wanted: &[u8]) -> Result<Verdict, Refusal>
    ensures number { number_in result ≡ verify_number table.now sheet.now wanted.now }
    ensures verdict { IfOk result (λ v. Judged table.now sheet.now wanted.now v) }
{
    let mut reading = [0u16; board::MOST_READING];
    let found = board::open_board(table, sheet, &mut reading)?;
    let device = found.device;
    let count = (device.words as usize) + READING_TAIL;
    let mut aim = [0u16; board::MOST_READING];
    sheet::read_sheet(device, found.name(table), wanted, &mut aim[..count])?;
    judge::verify(device, &aim[..count], &reading[..count])
}
