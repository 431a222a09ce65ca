// Requests on single steps and runs of the target model.
use ask::{Answer, Fields, Wrong};
use device::Device;
use refusal::{Refusal, number_in};
use target::{Ran, Registers};
use words::WordAddress;

// One step, made by one of three calls with the same fields. `target::step` takes its registers by value: beside a refusal the given ones are told.
pub(crate) fn step<
    S: Fn(Device, Registers, u8, u16, &mut [u16], &mut [u16]) -> (Registers, Result<(), Refusal>),
>(fields: &mut Fields, out: &mut Answer, step: S) -> Result<(), Wrong>
    requires { S.IsAlwaysCallable step }
{
    let d = fields.device()?;
    let counter = WordAddress(fields.number()?);
    let Ok(latches) = <[u16; 32]>::try_from(fields.words()?) else {
        return Err(Wrong::Malformed);
    };
    let code = fields.number()?;
    let payload = fields.number()?;
    let words = fields.words()?;
    let cells = fields.words()?;
    fields.end()?;
    let given = Registers { counter, latches };
    let (registers, answer) = step(d, given, code, payload, words, cells);
    out.number(number_in(&answer))?;
    out.number(registers.counter.0)?;
    out.words(&registers.latches)?;
    out.words(words)?;
    out.words(cells)
}

// Beside a refusal no words are told.
pub(crate) fn run(fields: &mut Fields, out: &mut Answer) -> Result<(), Wrong> {
    let d = fields.device()?;
    let cells = fields.words()?;
    let stream = fields.bytes()?;
    let allowance = fields.number()?;
    let words = fields.words()?;
    fields.end()?;
    let (number, ran) = match target::run(d, cells, stream, allowance, words) {
        Ok(ran) => (0, ran),
        Err(stopped) => (
            stopped.refusal.number(),
            Ran {
                steps: stopped.steps,
                words: 0,
            },
        ),
    };
    out.number(number)?;
    out.number(ran.steps)?;
    out.number(ran.words)?;
    out.words(cells)?;
    out.words(words)
}
