// A board that has been judged, while steps are done on it.
ghost use Rattle.std.specs.Prelude.{◌≡◌, ◌+◌, ◌≤◌, length};
ghost use Rattle.device.specs.Memory.{cells_tail};

use crate::Registers;
use device::Sound;

// Its record and registers, how many words were read, and the two buffers that are lent to it.
#[derive(Drop)]
pub(crate) struct Board<'a> {
    pub sound: Sound,
    pub registers: Registers,
    pub read: usize,
    pub words: &'a mut [u16],
    pub cells: &'a mut [u16],
    ghost long: { length cells.now ≡ sound.device.words + cells_tail },
    ghost room: { read ≤ length words.now },
}
