// What all answers to requests are made of: the fields of a request, what is wrong with one, the fields of its answer, and room for them.
#![tactic(auto)]

mod answer;
mod fields;
pub mod room;
mod wrong;

pub use answer::Answer;
pub use fields::Fields;
pub use wrong::Wrong;
