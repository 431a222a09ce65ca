// What the programs checksum, verify and dump print of a board: files in, text out. No public call here has a `requires`.
#![tactic(auto)]

mod checksums;
mod dumps;
mod verdicts;

pub use checksums::checksum;
pub use dumps::dump;
pub use verdicts::verify;
