// Checksum and verify. No call here has a `requires`.
#![tactic(auto)]

mod checksums;
mod verdicts;

pub use checksums::checksum;
pub use verdicts::verify;
use words::WordAddress;

// What a reading comes to that is held against a wanted one.
#[derive(Clone, Copy, Debug, PartialEq, Eq)]
pub enum Verdict {
    // every word that is judged is the wanted one
    Same,
    // the first address at which one is not, and how many are not
    Differs { address: WordAddress, count: usize },
    // every word that is judged is the wanted one, and a protected board hides the others
    Protected,
}
