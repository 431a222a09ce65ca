// What the programs update, fresh, wanted, wanted_fresh and readback print: files in, the lines of a stream or a sheet out. No public call here has a `requires`.
#![tactic(auto)]

mod plans;
mod readbacks;
mod streams;
mod wanteds;

pub use plans::{fresh, update, wanted, wanted_fresh};
pub use readbacks::readback;
