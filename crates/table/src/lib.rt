// The device table (15, 16). No call here has a `requires`.
#![tactic(auto)]

ghost use Rattle.std.specs.Prelude.{◌≡◌, take, drop};

mod line;
mod pieces;
mod table;

use device::Device;
pub use line::is_name;
pub use table::{find_device, judge_table};

// The record of an ID, and where its name stands in the table's text.
#[derive(Clone, Copy, Debug, PartialEq, Eq)]
pub struct Found {
    pub device: Device,
    pub name_at: usize,
    pub name_len: usize,
}

impl Found {
    // The name, as it stands in the table's text: as much of it as the text has.
    pub fn name<'a>(&self, table: &'a [u8]) -> &'a [u8]
        ensures { result.now ≡ take self.now.name_len (drop self.now.name_at table.now) }
    {
        let rest = &table[self.name_at.min(table.len())..];
        &rest[..self.name_len.min(rest.len())]
    }
}
