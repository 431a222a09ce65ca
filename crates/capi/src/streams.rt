// The three streams.
ghost use Rattle.plan.specs.Steps.{update_steps, fresh_steps, read_back_steps};
ghost use Rattle.aim.specs.Refusal.{update_number, fresh_number};
ghost use Rattle.plan.specs.Answers.{read_back_number, Plans};
ghost use Rattle.capi.specs.Crossing.{device_at, plan_answer};

use crate::record::device_at;
use crate::told::told;

// The stream of an update.
#[unsafe(no_mangle)]
pub extern "C" fn tickmallet_update(
    numbers: &[u16; 6],
    image: &[u16],
    reading: &[u16],
    out: &mut [u8],
    steps: &mut usize,
) -> u8
    ensures { Plans (update_number (device_at numbers.now) image.now reading.now) (update_steps (device_at numbers.now) image.now reading.now)
        out.old (plan_answer result steps.new) out.new }
{
    told(
        plan::update(device_at(numbers), image, reading, out),
        0,
        steps,
    )
}

// The stream of a fresh programming.
#[unsafe(no_mangle)]
pub extern "C" fn tickmallet_fresh(
    numbers: &[u16; 6],
    image: &[u16],
    id_word: u16,
    out: &mut [u8],
    steps: &mut usize,
) -> u8
    ensures { Plans (fresh_number (device_at numbers.now) image.now id_word) (fresh_steps (device_at numbers.now) image.now)
        out.old (plan_answer result steps.new) out.new }
{
    told(
        plan::fresh(device_at(numbers), image, id_word, out),
        0,
        steps,
    )
}

// The stream that reads a whole board.
#[unsafe(no_mangle)]
pub extern "C" fn tickmallet_read_back(numbers: &[u16; 6], out: &mut [u8], steps: &mut usize) -> u8
    ensures { Plans (read_back_number (device_at numbers.now)) (read_back_steps (device_at numbers.now)) out.old (plan_answer result steps.new) out.new }
{
    told(plan::read_back(device_at(numbers), out), 0, steps)
}
