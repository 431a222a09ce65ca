// Board sheets, written in either form. No call here has a `requires`.
#![tactic(auto)]

mod write;

pub use write::{write_new_sheet, write_sheet};

pub(crate) const TAB: u8 = b'\t';

pub(crate) const LF: u8 = b'\n';
