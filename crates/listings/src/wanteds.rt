// The sheet that a stream is to leave, made of the image and the reading alone: the stream has no say in it.
ghost use Rattle.std.specs.Prelude.{◌≡◌, true, ◌<◌, length};
ghost use Rattle.device.specs.Record.{device_up_to};
ghost use Rattle.device.specs.Memory.{reading_ok};
ghost use Rattle.sheet.specs.Sheet.{sheet_with};
ghost use Rattle.plan.specs.Demands.{programmed};
ghost use Rattle.print.specs.Print.{Prints};
ghost use Rattle.board.specs.Open.{most_program};
ghost use Rattle.listings.specs.LawsPlans.{is_fresh, plan_number, known_to};
ghost use Rattle.listings.specs.LawsLeft.{left_word};

use crate::plans::Planner;
use aim::Aim;
use device::READING_TAIL;

// The sheet of what the board is to hold, where the planner refuses nothing, with this ID on line 1.
pub(crate) fn put_left(aim: Aim, id: u16, planner: Planner, out: &mut [u8]) -> usize
    requires { (device_up_to most_program aim.device ≡ true) × (reading_ok aim.device.words aim.reading.now ≡ true) × (plan_number (is_fresh planner) aim.device aim.image.now aim.reading.now ≡ 0) × (id < 0x4000) }
    ensures { Prints (sheet_with id aim.entry.device (programmed aim.entry.device aim.entry.image.now (known_to (is_fresh planner) aim.entry.reading.now) aim.entry.reading.now)) out.old result out.new }
{
    let count = (aim.device.words as usize) + READING_TAIL;
    let mut words = [0u16; board::MOST_READING];
    let known = Aim {
        reading: planner.known(aim.reading),
        ..aim
    };
    fill(&known, aim.reading, &mut words[..count]);
    board::print_sheet(aim.device, id, &words[..count], out)
}

// Stores each word that the board is to hold.
fn fill(aim: &Aim, reading: &[u16], words: &mut [u16])
    requires { length words.old ≡ length reading.now }
    ensures { words.new ≡ programmed aim.now.device aim.now.image.now aim.now.reading.now reading.now }
{
    for (i, word) in words.iter_mut().enumerate() {
        *word = left_word(aim, reading, i);
    }
}

// A word that nothing programs stays.
#[tactic(auto, unfolding(crate::specs::LawsLeft::left_word, words::specs::Choice::pick))]
fn left_word(aim: &Aim, reading: &[u16], i: usize) -> u16
    requires { i < length reading.now }
    ensures { result ≡ left_word aim.now.device aim.now.image.now aim.now.reading.now reading.now i }
{
    if device::programmable(aim.device.words, i) {
        aim.wanted(i)
    } else {
        reading[i]
    }
}
