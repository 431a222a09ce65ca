// Words of the target, and the two kinds of address. No call here has a `requires`.
#![tactic(auto)]

pub mod address;
pub mod list;

// The address of a word of the target.
#[derive(Clone, Copy, Debug, PartialEq, Eq, PartialOrd, Ord)]
pub struct WordAddress(pub u16);

// The address of a byte of HEX text: wide enough that no sum of an upper half, an offset and a place wraps.
#[derive(Clone, Copy, Debug, PartialEq, Eq, PartialOrd, Ord)]
pub struct ByteAddress(pub u64);

// A word has 14 bits.
pub const WORD_LIMIT: u16 = 0x4000;

// A word whose bits are all 1.
pub const ERASED: u16 = 0x3fff;

// What an image holds where the file gives no word.
pub const NOT_GIVEN: u16 = 0xffff;

// Where configuration space begins in this family.
pub const CONFIG_BASE: u16 = 0x8000;
