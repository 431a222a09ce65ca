// What the program trial prints: files in, the sheet after a printed stream was played on the model out. No public call here has a `requires`.
#![tactic(auto)]

mod played;
mod typed;

ghost use Rattle.std.specs.Prelude.{◌≤◌};
ghost use Rattle.print.specs.Print.{Prints};
ghost use Rattle.trials.specs.Trial.{trial_text};

use device::READING_TAIL;
use refusal::Refusal;
use typed::MOST_STEPS;

// Prints the sheet after a printed stream was played on the model, as far as there is room, and answers the length of the whole text.
pub fn trial(table: &[u8], sheet: &[u8], stream: &[u8], out: &mut [u8]) -> usize
    ensures { (Prints (trial_text table.now sheet.now stream.now) out.old result out.new) × (result ≤ 46135) }
{
    let mut reading = [0u16; board::MOST_READING];
    let device = match board::open_board(table, sheet, &mut reading) {
        Ok(found) => found.device,
        Err(unopened) => return print::refusal(out, unopened.refusal.number(), 0, 0),
    };
    let mut bytes = [0u8; 3 * MOST_STEPS];
    let steps = match typed::read_stream(stream, &mut bytes) {
        Ok(steps) => steps,
        Err(line) => return print::refusal(out, Refusal::BrokenStream.number(), line, 1),
    };
    let count = (device.words as usize) + READING_TAIL;
    let id = sheet::read_id(sheet).unwrap();
    played::put_run(device, id, &reading[..count], &bytes[..3 * steps], out)
}
