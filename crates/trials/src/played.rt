// A stream played on the model of a board, with room for a word at each step.
ghost use Rattle.std.specs.Prelude.{◌≡◌, true, ◌<◌};
ghost use Rattle.device.specs.Record.{device_up_to};
ghost use Rattle.device.specs.Memory.{reading_ok};
ghost use Rattle.print.specs.Print.{Prints};
ghost use Rattle.board.specs.Open.{most_program};
ghost use Rattle.trials.specs.Trial.{played, played_text};

use crate::typed::MOST_STEPS;
use board::MOST_PROGRAM;
use device::{CELLS_TAIL, Device, READING_TAIL};
use words::ERASED;

// The most cells that the target of a board has.
const MOST_CELLS: usize = (MOST_PROGRAM as usize) + CELLS_TAIL;

// The text of a run on the cells of a reading, whose calibration words are erased, with this ID on line 1.
pub(crate) fn put_run(d: Device, id: u16, reading: &[u16], stream: &[u8], out: &mut [u8]) -> usize
    requires { (device_up_to most_program d ≡ true) × (reading_ok d.words reading.now ≡ true) × (id < 0x4000) }
    ensures { Prints (played_text id d (played d reading.now stream.now)) out.old result out.new }
{
    let mut cells = [ERASED; MOST_CELLS];
    cells[..reading.len()].copy_from_slice(reading);
    let count = (d.words as usize) + CELLS_TAIL;
    let mut words = [0u16; MOST_STEPS];
    match target::run(d, &mut cells[..count], stream, MOST_STEPS, &mut words) {
        Ok(_) => {
            let count = (d.words as usize) + READING_TAIL;
            board::print_sheet(d, id, &cells[..count], out)
        }
        Err(stopped) => {
            let line = stopped.steps as u32 + 1;
            print::refusal(out, stopped.refusal.number(), line, 1)
        }
    }
}
