// The main calls for programs in other languages. Each is a call of a library below it: its number is returned, and the other values of its answer
// are stored where the caller says. No call here has a `requires`.
#![tactic(auto)]

mod boards;
mod hex;
mod model;
mod moved;
mod record;
mod streams;
mod told;
