// Registers that are carried along from step to step: lent to a step, which changes them in place.
ghost use Rattle.refusal.specs.Refusal.{number_in};
ghost use Rattle.target.specs.Step.{Steps};

use crate::Registers;
use crate::single::step;
use device::Device;
use refusal::Refusal;

// One step on registers that are carried along; the same as the by-value step.
pub fn step_on(
    registers: &mut Registers,
    d: Device,
    code: u8,
    payload: u16,
    words: &mut [u16],
    cells: &mut [u16],
) -> Result<(), Refusal>
    ensures { Steps d registers.old code payload words.old cells.old (number_in result) registers.new words.new cells.new }
{
    registers.step(d, code, payload, words, cells)
}

impl Registers {
    // The same as a method of the registers.
    pub fn step(
        &mut self,
        d: Device,
        code: u8,
        payload: u16,
        words: &mut [u16],
        cells: &mut [u16],
    ) -> Result<(), Refusal>
        ensures { Steps d self.old code payload words.old cells.old (number_in result) self.new words.new cells.new }
    {
        *self = step(d, *self, code, payload, words, cells)?;
        Ok(())
    }
}
