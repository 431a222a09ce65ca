// The three streams: update, fresh and read-back. No public call here has a `requires`.
#![tactic(auto)]

mod config;
mod count;
mod orders;
mod planner;
mod rows;
mod task;

pub use planner::{fresh, read_back, update};
