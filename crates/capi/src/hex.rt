// Intel HEX text.
ghost use Rattle.hexread.specs.Reader.{HexRead};
ghost use Rattle.hexwrite.specs.Writer.{WroteHex};
ghost use Rattle.capi.specs.Crossing.{device_at, hex_outcome, hex_answer};

use crate::record::device_at;
use crate::told::told;

// HEX text read into an image.
#[unsafe(no_mangle)]
pub extern "C" fn tickmallet_read_hex(
    numbers: &[u16; 6],
    text: &[u8],
    image: &mut [u16],
    line: &mut u32,
    column: &mut u32,
) -> u8
    ensures { HexRead (device_at numbers.now) text.now image.old (hex_outcome result line.new column.new) image.new }
{
    let (number, at_line, at_column) = match hexread::read_hex(device_at(numbers), text, image) {
        Ok(()) => (0, 0, 0),
        Err(misread) => (misread.refusal.number(), misread.line, misread.column),
    };
    *line = at_line;
    *column = at_column;
    number
}

// An image written as HEX text.
#[unsafe(no_mangle)]
pub extern "C" fn tickmallet_write_hex(
    numbers: &[u16; 6],
    image: &[u16],
    out: &mut [u8],
    length: &mut usize,
) -> u8
    ensures { WroteHex (device_at numbers.now) image.now out.old (hex_answer result length.new) out.new }
{
    told(
        hexwrite::write_hex(device_at(numbers), image, out),
        0,
        length,
    )
}
