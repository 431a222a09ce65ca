// Intel HEX, read into an image. No call here has a `requires`.
#![tactic(auto)]

mod column;
mod digits;
mod fault;
mod give;
mod line;
mod read;
mod reader;

pub use read::read_hex;
use refusal::Refusal;

// Why a text is refused, and the line and the column in it, both from 1 and 0 where no line is to blame.
#[derive(Clone, Copy, Debug, PartialEq, Eq)]
pub struct Misread {
    pub refusal: Refusal,
    pub line: u32,
    pub column: u32,
}

// The longest HEX text.
pub const MOST_TEXT: usize = 524288;
