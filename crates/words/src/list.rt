// Lists of words.
ghost use Rattle.std.specs.Prelude.{◌≡◌, length, get_or};
ghost use Rattle.words.specs.Word.{words_of};
ghost use Rattle.words.specs.LawsJoined.{Joined};

use crate::WORD_LIMIT;

// Whether a list has n entries, each a word.
pub fn is_words(l: &[u16], n: usize) -> bool
    ensures { result ≡ words_of n l.now }
{
    l.len() == n && join(l) < WORD_LIMIT
}

// The bits of all entries together: the loop has no way out but its end, so that several entries are taken at once.
fn join(l: &[u16]) -> u16
    ensures { Joined (length l.now) (λ k. get_or l.now k 0) result }
{
    let mut all = 0;
    for entry in l {
        all |= *entry;
    }
    all
}
