// The words that a read-back answered: a word a line, as four capital hex digits.
ghost use Rattle.std.specs.Prelude.{◌≡◌, true, ◌+◌, ◌*◌, ◌≤◌, length};
ghost use Rattle.device.specs.Memory.{reading_tail, reading_ok};
ghost use Rattle.board.specs.Open.{most_program};
ghost use Rattle.gathers.specs.Gather.{answers_in, answers_ok};
ghost use Rattle.gathers.specs.LawsAnswers.{answer_ok, answers_to};

use device::READING_TAIL;
use numerals::hex;
use words::WORD_LIMIT;

const LF: u8 = 10;

// Whether a text is just the lines of a whole reading.
#[tactic(auto, using(crate::specs::LawsAnswers::answers_long, crate::specs::LawsAnswers::answers_lines))]
pub(crate) fn lines_ok(program: usize, text: &[u8]) -> bool
    requires { program ≤ most_program }
    ensures { result ≡ answers_ok program text.now }
{
    let count = program + READING_TAIL;
    text.len() == 5 * count && each_ok(text, count)
}

// Whether so many lines stand at the start of a text.
#[tactic(auto, using(crate::specs::LawsAnswers::lines_none, crate::specs::LawsAnswers::lines_more, crate::specs::LawsAnswers::lines_no))]
fn each_ok(text: &[u8], count: usize) -> bool
    requires { length text.now ≡ 5 * count }
    ensures { result ≡ answers_to text.now count }
{
    for k in 0..count {
        if !line_ok(text, 5 * k) {
            return false;
        }
    }
    true
}

// A word and LF.
#[tactic(auto, using(crate::specs::LawsAnswers::line_unread, crate::specs::LawsAnswers::line_no_word, crate::specs::LawsAnswers::line_end))]
fn line_ok(text: &[u8], at: usize) -> bool
    requires { at + 5 ≤ length text.now }
    ensures { result ≡ answer_ok text.now at }
{
    match hex::capital_word(text, at) {
        Some(word) => word < WORD_LIMIT && text[at + 4] == LF,
        None => false,
    }
}

// Stores the words of a text that was judged.
pub(crate) fn store(program: usize, text: &[u8], buffer: &mut [u16])
    requires { (program ≤ most_program) × (length buffer.old ≡ program + reading_tail) × (reading_ok program (answers_in program text.now) ≡ true) }
    ensures { buffer.new ≡ answers_in program text.now }
{
    for (i, word) in buffer.iter_mut().enumerate() {
        *word = hex::capital_word(text, 5 * i).unwrap();
    }
}
