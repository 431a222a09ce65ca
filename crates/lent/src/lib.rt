// The calls that a struct is lent to, asked with plain values. No public call here has a `requires`.
#![tactic(auto)]

mod text;

ghost use Rattle.refusal.specs.Refusal.{number_in};
ghost use Rattle.target.specs.Step.{Steps};

use device::Device;
use refusal::Refusal;
use target::Registers;
pub use text::{first_number, third_line};

// One step by `target::step_on`: the registers are lent to it, and what it left in them comes back, after a refusal too.
pub fn step_on(
    d: Device,
    r: Registers,
    code: u8,
    payload: u16,
    words: &mut [u16],
    cells: &mut [u16],
) -> (Registers, Result<(), Refusal>)
    ensures { Steps d r code payload words.old cells.old (number_in result.1) result.0 words.new cells.new }
{
    let mut registers = r;
    let answer = target::step_on(&mut registers, d, code, payload, words, cells);
    (registers, answer)
}

// The same by the method. The two stay apart: each is a request of its own (`step_on` and `step_method` of docs/ANSWER.md).
pub fn step_method(
    d: Device,
    r: Registers,
    code: u8,
    payload: u16,
    words: &mut [u16],
    cells: &mut [u16],
) -> (Registers, Result<(), Refusal>)
    ensures { (Steps d r code payload words.old cells.old (number_in result.1) result.0 words.new cells.new) }
{
    let mut registers = r;
    let answer = registers.step(d, code, payload, words, cells);
    (registers, answer)
}
