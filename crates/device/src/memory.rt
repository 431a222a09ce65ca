// Places, masks and readings of a device's memory.
ghost use Rattle.std.specs.Prelude.{◌≡◌};
ghost use Rattle.words.specs.Word.{under_mask};
ghost use Rattle.device.specs.Memory.{is_config, programmable, mask_at, reading_ok, protected};

use crate::{Device, IDS, READING_TAIL};
use words::ERASED;

// Whether entry i is a program word, a user ID or a configuration word.
#[tactic(auto, using(words::specs::LawsChoice::tests), unfolding(crate::specs::Memory::programmable))]
pub fn programmable(words: u16, i: usize) -> bool
    ensures { result ≡ programmable words i }
{
    let program = usize::from(words);
    i < program || i - program < IDS || is_config(i - program)
}

// Whether word k of configuration space is one of the two configuration words.
#[tactic(auto, using(words::specs::LawsChoice::tests), unfolding(crate::specs::Memory::is_config, words::specs::Lists::in_range))]
fn is_config(k: usize) -> bool
    ensures { result ≡ is_config k }
{
    7 <= k && k < 9
}

// A new word over an old one at entry i: new bits under the entry's mask, old bits elsewhere.
#[tactic(auto, using(crate::specs::LawsMask::over_one, crate::specs::LawsMask::over_two, crate::specs::LawsMask::over_all))]
pub fn under_mask(d: Device, i: usize, new: u16, old: u16) -> u16
    ensures { result ≡ under_mask (mask_at d i) new old }
{
    let program = usize::from(d.words);
    if i == program + 7 {
        merged(d.mask1, new, old)
    } else if i == program + 8 {
        merged(d.mask2, new, old)
    } else {
        new
    }
}

// New bits under a mask, old bits elsewhere.
#[tactic(auto, unfolding(words::specs::Word::under_mask, words::specs::Word::without, words::specs::Word::spare))]
fn merged(mask: u16, new: u16, old: u16) -> u16
    ensures { result ≡ under_mask mask new old }
{
    let spare = ERASED ^ (ERASED & mask);
    (new ^ (new & spare)) | (old & spare)
}

// Whether a list is a reading of a device with so many program words.
#[tactic(auto, unfolding(crate::specs::Memory::reading_ok))]
pub fn is_reading(words: u16, l: &[u16]) -> bool
    ensures { result ≡ reading_ok words l.now }
{
    words::list::is_words(l, usize::from(words) + READING_TAIL)
}

// Whether CP, bit 7 of the first configuration word, is 0; a word past the list's end counts as 0.
#[tactic(auto, using(crate::specs::LawsMemory::protected_past), unfolding(crate::specs::Memory::protected, crate::specs::Memory::zero_bit, words::specs::Word::bit))]
pub fn is_protected(words: u16, l: &[u16]) -> bool
    ensures { result ≡ protected words l.now }
{
    match l.get(usize::from(words) + 7) {
        Some(word) => *word / 128 % 2 == 0,
        None => true,
    }
}
