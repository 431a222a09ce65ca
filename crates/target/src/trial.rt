// A trial run: entry, and then as many steps of a stream as it may take.
ghost use Rattle.std.specs.Prelude.{◌≡◌, ◌+◌, ◌*◌, ◌≤◌, ◌<◌, length, get_or, IfOk};
ghost use Rattle.refusal.specs.Refusal.{number_in};
ghost use Rattle.target.specs.Run.{ran_told, run_refusal, Runs};
ghost use Rattle.target.specs.LawsRun.{Goes};
ghost use Rattle.target.specs.LawsHeld.{chip_at, target_of};

use crate::board::Board;
use crate::sound::judge;
use crate::{Ran, Registers, Stopped};
use device::{Device, Sound};
use refusal::Refusal;
use words::{ERASED, WordAddress};

// Runs a stream on a target: 13, 32 and 34 before the first step, and then the refusal of the step that stops it.
pub fn run(
    d: Device,
    cells: &mut [u16],
    stream: &[u8],
    allowance: usize,
    words: &mut [u16],
) -> Result<Ran, Stopped>
    ensures { Runs d stream.now allowance words.old cells.old (ran_told result) words.new cells.new }
{
    let sound = match before(d, cells, stream) {
        Ok(sound) => sound,
        Err(refusal) => return Err(Stopped { refusal, steps: 0 }),
    };
    let registers = Registers {
        counter: WordAddress(0),
        latches: [ERASED; 32],
    };
    let mut board = Board {
        sound,
        registers,
        read: 0,
        words,
        cells,
    };
    board.go(stream, allowance.min(stream.len() / 3))
}

// What stops a run before its first step.
fn before(d: Device, cells: &[u16], stream: &[u8]) -> Result<Sound, Refusal>
    ensures number { number_in result ≡ run_refusal d stream.now cells.now }
    ensures same { IfOk result (λ s. s.device ≡ d) }
{
    let sound = judge(d, cells)?;
    if stream.len() % 3 != 0 {
        return Err(Refusal::BrokenStream);
    }
    Ok(sound)
}

impl Board<'_> {
    // So many steps of a stream, in turn.
    fn go(&mut self, stream: &[u8], steps: usize) -> Result<Ran, Stopped>
        requires { 3 * steps ≤ length stream.now }
        ensures goes { Goes (chip_at self.old) (run_refusal self.old.sound.device) stream.now steps (target_of self.old) (ran_told result) (target_of self.new) }
        ensures same_words { self.new.words.ghost_name ≡ self.old.words.ghost_name }
        ensures same_cells { self.new.cells.ghost_name ≡ self.old.cells.ghost_name }
    {
        for done in 0..steps {
            let first = 3 * done;
            if let Err(refusal) = self.perform(stream[first], payload_at(stream, first)) {
                return Err(Stopped {
                    refusal,
                    steps: done,
                });
            }
        }
        Ok(Ran {
            steps,
            words: self.read,
        })
    }
}

fn payload_at(stream: &[u8], at: usize) -> u16
    requires { at + 2 < length stream.now }
    ensures { result ≡ get_or stream.now (at + 1) 0 + 256 * get_or stream.now (at + 2) 0 }
{
    u16::from_le_bytes([stream[at + 1], stream[at + 2]])
}
