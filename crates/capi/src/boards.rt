// Checksum, verify, and board sheets.
ghost use Rattle.std.specs.Prelude.{◌≡◌};
ghost use Rattle.judge.specs.Checksum.{summed};
ghost use Rattle.judge.specs.Verify.{verified};
ghost use Rattle.sheet.specs.FirstLine.{first_line};
ghost use Rattle.sheet.specs.Sheet.{read_number, read_buffer};
ghost use Rattle.sheetwrite.specs.Write.{written, written_text, new_written, new_written_text};
ghost use Rattle.capi.specs.Crossing.{device_at, sum_answer, verdict_answer, id_answer, sheet_answer};

use crate::record::device_at;
use crate::told::told;
use judge::Verdict;
use refusal::number_in;

// The checksum of a reading.
#[unsafe(no_mangle)]
pub extern "C" fn tickmallet_checksum(numbers: &[u16; 6], reading: &[u16], sum: &mut u16) -> u8
    ensures { sum_answer result sum.new ≡ summed (device_at numbers.now) reading.now }
{
    told(judge::checksum(device_at(numbers), reading), 0, sum)
}

// A reading held against a wanted one.
#[unsafe(no_mangle)]
pub extern "C" fn tickmallet_verify(
    numbers: &[u16; 6],
    wanted: &[u16],
    reading: &[u16],
    address: &mut u16,
    count: &mut usize,
) -> u8
    ensures { verdict_answer result address.new count.new ≡ verified (device_at numbers.now) wanted.now reading.now }
{
    let (number, first, all) = match judge::verify(device_at(numbers), wanted, reading) {
        Ok(Verdict::Same) => (0, 0, 0),
        Ok(Verdict::Differs { address, count }) => (40, address.0, count),
        Ok(Verdict::Protected) => (41, 0, 0),
        Err(refusal) => (refusal.number(), 0, 0),
    };
    *address = first;
    *count = all;
    number
}

// The ID on a sheet's first line.
#[unsafe(no_mangle)]
pub extern "C" fn tickmallet_read_id(text: &[u8], id: &mut u16) -> u8
    ensures { id_answer result id.new ≡ first_line text.now }
{
    told(sheet::read_id(text), 0, id)
}

// A sheet of either form read into a buffer.
#[unsafe(no_mangle)]
pub extern "C" fn tickmallet_read_sheet(
    numbers: &[u16; 6],
    name: &[u8],
    text: &[u8],
    buffer: &mut [u16],
) -> u8
    ensures { (result ≡ read_number (device_at numbers.now) name.now text.now buffer.old)
        × (buffer.new ≡ read_buffer (device_at numbers.now) name.now text.now buffer.old) }
{
    number_in(&sheet::read_sheet(device_at(numbers), name, text, buffer))
}

// A sheet written in the old form.
#[unsafe(no_mangle)]
pub extern "C" fn tickmallet_write_sheet(
    numbers: &[u16; 6],
    reading: &[u16],
    out: &mut [u8],
    length: &mut usize,
) -> u8
    ensures { (sheet_answer result length.new ≡ written (device_at numbers.now) reading.now out.old)
        × (out.new ≡ written_text (device_at numbers.now) reading.now out.old) }
{
    told(
        sheetwrite::write_sheet(device_at(numbers), reading, out),
        0,
        length,
    )
}

// A sheet written in the new form.
#[unsafe(no_mangle)]
pub extern "C" fn tickmallet_write_new_sheet(
    numbers: &[u16; 6],
    name: &[u8],
    reading: &[u16],
    out: &mut [u8],
    length: &mut usize,
) -> u8
    ensures { (sheet_answer result length.new ≡ new_written (device_at numbers.now) name.now reading.now out.old)
        × (out.new ≡ new_written_text (device_at numbers.now) name.now reading.now out.old) }
{
    told(
        sheetwrite::write_new_sheet(device_at(numbers), name, reading, out),
        0,
        length,
    )
}
