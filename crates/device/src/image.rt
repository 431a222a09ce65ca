// Images of a device's memory.
ghost use Rattle.std.specs.Prelude.{◌≡◌, ◌+◌, length, get_or};
ghost use Rattle.words.specs.LawsJoined.{Joined};
ghost use Rattle.device.specs.Memory.{reading_tail, image_ok};
ghost use Rattle.device.specs.LawsImage.{given_bits, never_given};

use crate::{IDS, READING_TAIL};
use words::{NOT_GIVEN, WORD_LIMIT};

// Whether a list is an image of a device with so many program words.
pub fn is_image(words: u16, l: &[u16]) -> bool
    ensures { result ≡ image_ok words l.now }
{
    if l.len() != (words as usize) + READING_TAIL {
        return false;
    }
    join_given(l) < WORD_LIMIT && none_between(words, l)
}

// The bits of all words that are given together: the loop has no way out but its end, so that several entries are taken at once.
fn join_given(l: &[u16]) -> u16
    ensures { Joined (length l.now) (λ k. given_bits (get_or l.now k 0)) result }
{
    let mut all = 0;
    for entry in l {
        all |= given_bits(*entry);
    }
    all
}

// The bits of an entry, none where it is 'not given'.
#[tactic(auto, using(crate::specs::LawsImage::bits_none, crate::specs::LawsImage::bits_given))]
fn given_bits(entry: u16) -> u16
    ensures { result ≡ given_bits entry }
{
    if entry == NOT_GIVEN { 0 } else { entry }
}

// Whether the words between the user IDs and the configuration words are not given.
#[tactic(auto, using(words::specs::LawsChoice::tests), unfolding(crate::specs::LawsImage::never_given))]
fn none_between(words: u16, l: &[u16]) -> bool
    requires { length l.now ≡ words + reading_tail }
    ensures { result ≡ never_given words l.now }
{
    let first = usize::from(words) + IDS;
    l[first] == NOT_GIVEN && l[first + 1] == NOT_GIVEN && l[first + 2] == NOT_GIVEN
}
