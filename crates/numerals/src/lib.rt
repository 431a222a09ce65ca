// The text of hex and decimal numbers. No call here has a `requires`.
#![tactic(auto)]

pub mod decimal;
pub mod hex;
