// A printed stream, read: a step a line, as two capital hex digits, a tab and four of them.
ghost use Rattle.std.specs.Prelude.{◌≡◌, ◌<◌, length, MatchResult};
ghost use Rattle.trials.specs.LawsTyped.{step_told, Next, Stored, BadLine};

const TAB: u8 = b'\t';

const LF: u8 = b'\n';

// The most steps that are played.
pub(crate) const MOST_STEPS: usize = 32768;

// Stores the bytes of a printed stream and answers its steps, or the first line that is no step or is one too many. After the last LF
// there is a line only if anything stands there.
pub(crate) fn read_stream(text: &[u8], stream: &mut [u8; 3 * MOST_STEPS]) -> Result<usize, u32>
    ensures { MatchResult result (λ steps. Stored text.now stream.old steps stream.new) (λ line. BadLine text.now line) }
{
    let mut steps = 0;
    let mut ahead = text;
    while !ahead.is_empty() {
        let (line, after) = cut(ahead);
        match step_of(line) {
            Some(step) if steps < MOST_STEPS => {
                stream[3 * steps..3 * steps + 3].copy_from_slice(&step);
            }
            _ => return Err(steps as u32 + 1),
        }
        steps += 1;
        ahead = after;
    }
    Ok(steps)
}

// The first line of a text without its LF, and what comes after.
fn cut(text: &[u8]) -> (&[u8], &[u8])
    requires { 0 < length text.now }
    ensures next { Next text.now result.0.now result.1.now }
    ensures shorter { length result.1.now < length text.now }
{
    let stop = marks::find(text, 0, text.len(), LF);
    (&text[..stop], &text[text.len().min(stop + 1)..])
}

// The bytes of a line that is a step: code, payload low, payload high.
#[tactic(auto, unfolding(crate::specs::Trial::is_step, crate::specs::Trial::typed_bytes, words::specs::Choice::pick))]
fn step_of(line: &[u8]) -> Option<[u8; 3]>
    ensures { result ≡ step_told line.now }
{
    if line.len() != 7 || line[2] != TAB {
        return None;
    }
    let code = numerals::hex::capital_byte(line, 0)?;
    let [high, low] = numerals::hex::capital_word(line, 3)?.to_be_bytes();
    Some([code, low, high])
}
