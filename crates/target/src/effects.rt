// What orders do to the counter and the latches.
ghost use Rattle.std.specs.Prelude.{◌≡◌, ◌%◌, ◌<◌};
ghost use Rattle.words.specs.Address.{config_base, successor};
ghost use Rattle.target.specs.Step.{place, sound_latches};
ghost use Rattle.target.specs.LawsHeld.{chip_at, target_of};

use crate::board::Board;
use words::{CONFIG_BASE, WordAddress};

impl Board<'_> {
    // The latch of the counter, the counter mod R: R is a power of two, so these are the counter's low bits.
    pub(crate) fn latch(&self) -> usize
        ensures { (result ≡ place (target_of self.now) % self.now.sound.device.row) × (result < 32) }
    {
        (self.registers.counter.0 & (self.sound.device.row - 1)) as usize
    }

    // Whether the latches that count are words.
    pub(crate) fn has_words(&self) -> bool
        ensures { result ≡ sound_latches (chip_at self.now) self.now.registers.latches }
    {
        let row = self.sound.device.row as usize;
        words::list::is_words(&self.registers.latches[..row], row)
    }
}

// Increment: the highest bit tells the space and stays, and the others count around.
#[tactic(auto, using(words::specs::LawsAddress::successor_around))]
pub(crate) fn next_address(a: WordAddress) -> WordAddress
    ensures { result.0 ≡ successor config_base a.0 }
{
    let space = a.0 / CONFIG_BASE * CONFIG_BASE;
    WordAddress(space + (a.0 % CONFIG_BASE + 1) % CONFIG_BASE)
}
