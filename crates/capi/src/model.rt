// The target model.
ghost use Rattle.target.specs.Run.{Runs};
ghost use Rattle.capi.specs.Crossing.{device_at, run_answer};

use crate::record::device_at;

// A trial run of a stream.
#[unsafe(no_mangle)]
pub extern "C" fn tickmallet_run(
    numbers: &[u16; 6],
    cells: &mut [u16],
    stream: &[u8],
    allowance: usize,
    words: &mut [u16],
    steps: &mut usize,
    read: &mut usize,
) -> u8
    ensures { Runs (device_at numbers.now) stream.now allowance words.old cells.old (run_answer result steps.new read.new) words.new cells.new }
{
    match target::run(device_at(numbers), cells, stream, allowance, words) {
        Ok(ran) => {
            *steps = ran.steps;
            *read = ran.words;
            0
        }
        Err(stopped) => {
            *steps = stopped.steps;
            *read = 0;
            stopped.refusal.number()
        }
    }
}
