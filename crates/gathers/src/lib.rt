// What the program gather prints: files in, the sheet of the words that a read-back answered out. No public call here has a `requires`.
#![tactic(auto)]

mod answers;

ghost use Rattle.std.specs.Prelude.{◌≡◌, ◌≤◌, MatchResult};
ghost use Rattle.refusal.specs.Refusal.{number_in};
ghost use Rattle.print.specs.Print.{Prints};
ghost use Rattle.gathers.specs.Gather.{gather_number, gathered, gather_text};

use device::READING_TAIL;
use refusal::Refusal;

// Prints the sheet of the words that a read-back answered as far as there is room, and answers the length of the whole text.
#[tactic(auto, using(print::specs::LawsPrint::prints_as, crate::specs::LawsGather::gather_refused, crate::specs::LawsGather::gather_found, crate::specs::LawsGather::gather_short))]
pub fn gather(table: &[u8], sheet: &[u8], answers: &[u8], out: &mut [u8]) -> usize
    ensures { (Prints (gather_text table.now sheet.now answers.now) out.old result out.new) × (result ≤ 46135) }
{
    match put_sheet(table, sheet, answers, out) {
        Ok(length) => length,
        Err(refusal) => print::refusal(out, refusal.number(), 0, 0),
    }
}

// Prints the sheet, with line 1's ID; a refusal prints nothing.
#[tactic(auto, using(crate::specs::LawsGather::gather_unopened, crate::specs::LawsGather::gather_21, crate::specs::LawsGather::gather_0))]
fn put_sheet(table: &[u8], sheet: &[u8], answers: &[u8], out: &mut [u8]) -> Result<usize, Refusal>
    ensures number { number_in result ≡ gather_number table.now sheet.now answers.now }
    ensures text { MatchResult result (λ n. Prints (gathered table.now sheet.now answers.now) out.old n out.new) (λ _. out.new ≡ out.old) }
{
    let device = board::open_record(table, sheet)?.device;
    let id = sheet::read_id(sheet)?;
    let program = device.words as usize;
    if !answers::lines_ok(program, answers) {
        return Err(Refusal::Reading);
    }
    let mut words = [0u16; board::MOST_READING];
    let reading = &mut words[..program + READING_TAIL];
    answers::store(program, answers, reading);
    Ok(board::print_sheet(device, id, reading, out))
}
