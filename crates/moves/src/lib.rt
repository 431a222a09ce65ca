// Sheets moved between their two forms. No public call here has a `requires`.
#![tactic(auto)]

mod programs;
mod sheets;

pub use programs::{newsheet, oldsheet};
pub use sheets::{to_new, to_old};
