// Intel HEX, written of an image. No call here has a `requires`.
#![tactic(auto)]

mod capitals;
mod image;
mod next_run;
mod run;
mod write;
mod write_run;
mod writer;

pub use write::write_hex;
