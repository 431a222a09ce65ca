// The device record and its rules (13), and the places of a device's memory. No call here has a `requires`.
#![tactic(auto)]

mod image;
mod memory;
mod record;
mod sound;

pub use image::is_image;
pub use memory::{is_protected, is_reading, programmable, under_mask};
pub use record::{fits, judge};
pub use sound::Sound;

// A device: its ID word, program words P, row words R, the masks of the two configuration words, and the mask of the ID. Its name is the table's.
#[derive(Clone, Copy, Debug, PartialEq, Eq)]
pub struct Device {
    pub id: u16,
    pub words: u16,
    pub row: u16,
    pub mask1: u16,
    pub mask2: u16,
    pub idmask: u16,
}

// The most program words that a device may have.
pub const MOST_WORDS: u16 = 32768;

// How many words of configuration space an image or a reading has, and how many the cells have.
pub const READING_TAIL: usize = 9;

pub const CELLS_TAIL: usize = 11;

// How many user IDs there are: the first words of configuration space.
pub const IDS: usize = 4;
