// Device records and the device table.
ghost use Rattle.std.specs.Prelude.{◌≡◌};
ghost use Rattle.table.specs.Table.{found_in};
ghost use Rattle.capi.specs.Crossing.{device_at, Finds};

use device::Device;

// The record that six numbers give.
pub(crate) fn device_at(numbers: &[u16; 6]) -> Device
    ensures { result ≡ device_at numbers.now }
{
    Device {
        id: numbers[0],
        words: numbers[1],
        row: numbers[2],
        mask1: numbers[3],
        mask2: numbers[4],
        idmask: numbers[5],
    }
}

// The record of an ID in a table, and where its name stands in the text.
#[tactic(auto, unfolding(table::specs::Table::refused))]
#[unsafe(no_mangle)]
pub extern "C" fn tickmallet_find_device(
    table: &[u8],
    id: u16,
    numbers: &mut [u16; 6],
    name_at: &mut usize,
    name_len: &mut usize,
) -> u8
    ensures { Finds (found_in table.now id) result numbers.new name_at.new name_len.new }
{
    match table::find_device(table, id) {
        Ok(found) => {
            let d = found.device;
            *numbers = [d.id, d.words, d.row, d.mask1, d.mask2, d.idmask];
            *name_at = found.name_at;
            *name_len = found.name_len;
            0
        }
        Err(refusal) => {
            *numbers = [0; 6];
            *name_at = 0;
            *name_len = 0;
            refusal.number()
        }
    }
}
