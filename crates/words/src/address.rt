// The only ways between byte addresses and word addresses, and the map between word addresses and entries.
ghost use Rattle.std.specs.Prelude.{◌≡◌};
ghost use Rattle.words.specs.Address.{placed, doubled, halved, entry_of, place_of};

use crate::{ByteAddress, WordAddress};

// The byte address at which a word begins.
#[tactic(auto, unfolding(crate::specs::Address::doubled))]
pub fn double(a: WordAddress) -> ByteAddress
    ensures { result ≡ doubled a }
{
    ByteAddress(2 * u64::from(a.0))
}

// The word that begins at a byte address: none begins at an odd one.
#[tactic(auto, using(crate::specs::LawsAddress::halved_even, crate::specs::LawsAddress::halved_odd))]
pub fn halve(b: ByteAddress) -> Option<WordAddress>
    ensures { result ≡ halved b }
{
    let byte = b.0;
    if byte % 2 == 0 { place(byte / 2) } else { None }
}

// The entry of a word address; words + tail where it has none.
#[tactic(auto, using(crate::specs::LawsChoice::tests), unfolding(crate::specs::Choice::pick, crate::specs::Address::entry_of))]
pub fn entry_of(base: WordAddress, words: u16, tail: u8, a: WordAddress) -> usize
    ensures { result ≡ entry_of base.0 words tail a.0 }
{
    let at = usize::from(a.0);
    let from = usize::from(base.0);
    let program = usize::from(words);
    let past = program + usize::from(tail);
    if at < program {
        at
    } else if at < from {
        past
    } else if at - from < usize::from(tail) {
        program + (at - from)
    } else {
        past
    }
}

// The address of an entry; none past the last one.
#[tactic(auto, using(crate::specs::LawsChoice::tests), unfolding(crate::specs::Choice::pick, crate::specs::Address::place_of, crate::specs::Address::address_of))]
pub fn address_of(base: WordAddress, words: u16, tail: u8, entry: usize) -> Option<WordAddress>
    ensures { result ≡ place_of base.0 words tail entry }
{
    let from = usize::from(base.0);
    let program = usize::from(words);
    if entry < program {
        place(entry as u64)
    } else if entry < program + usize::from(tail) {
        place((from + (entry - program)) as u64)
    } else {
        None
    }
}

// The word address of a number that 16 bits hold.
#[tactic(auto, using(crate::specs::LawsChoice::tests), unfolding(crate::specs::Choice::pick, crate::specs::Address::placed))]
fn place(n: u64) -> Option<WordAddress>
    ensures { result ≡ placed n }
{
    u16::try_from(n).ok().map(WordAddress)
}
