// Board sheets of either form, read. No call here has a `requires`.
#![tactic(auto)]

mod body;
mod first;
mod read;

pub use read::{read_id, read_sheet};

pub(crate) const TAB: u8 = b'\t';

pub(crate) const LF: u8 = b'\n';
