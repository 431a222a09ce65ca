// What a board is to hold, where that differs from what it holds and rises over it, and what a planner refuses. No call here has a `requires`.
#![tactic(auto)]

mod changes;
mod refused;
mod source;

pub use refused::fresh_refusal;
pub use source::Aim;
