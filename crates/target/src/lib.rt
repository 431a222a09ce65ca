// The target model: what a board does with each step. No public call here has a `requires`.
#![tactic(auto)]

mod board;
mod carried;
mod cells;
mod decode;
mod effects;
mod single;
mod sound;
mod trial;

pub use carried::step_on;
use refusal::Refusal;
pub use single::step;
pub use trial::run;
use words::WordAddress;

// The registers of a target: its program counter and its latches, of which the first R count.
#[derive(Clone, Copy, Debug, PartialEq, Eq)]
pub struct Registers {
    pub counter: WordAddress,
    pub latches: [u16; 32],
}

// What a step asks for.
#[derive(Clone, Copy, Debug, PartialEq, Eq)]
pub enum Order {
    LoadConfiguration(u16),
    LoadData(u16),
    Read,
    Increment,
    ResetAddress,
    Begin,
    BulkErase,
    RowErase,
}

// What a run that nothing stopped answers: the steps completed, and how many words were read.
#[derive(Clone, Copy, Debug, PartialEq, Eq)]
pub struct Ran {
    pub steps: usize,
    pub words: usize,
}

// The refusal that stopped a run, and the steps completed before it.
#[derive(Clone, Copy, Debug, PartialEq, Eq)]
pub struct Stopped {
    pub refusal: Refusal,
    pub steps: usize,
}
