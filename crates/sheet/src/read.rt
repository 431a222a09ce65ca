// The sheet reader: the whole text is judged before the first word is stored.
ghost use Rattle.std.specs.Prelude.{◌≡◌, true, IfOk};
ghost use Rattle.refusal.specs.Refusal.{number_in};
ghost use Rattle.judge.specs.Checksum.{checksum_of};
ghost use Rattle.sheet.specs.FirstLine.{first_line, id_told, rest_in};
ghost use Rattle.sheet.specs.Sheet.{body_words, body_ok, sheet_number, read_number, read_buffer};

use crate::body::{places_ok, store};
use crate::first::read_line;
use device::{Device, MOST_WORDS, READING_TAIL, Sound};
use refusal::Refusal;

// The most words that a reading has.
const LONGEST_READING: usize = (MOST_WORDS as usize) + READING_TAIL;

// Reads a sheet of either form into a buffer: 13, 12, 14, 18 or 19 where it cannot, and then the buffer stays.
pub fn read_sheet(d: Device, name: &[u8], text: &[u8], buffer: &mut [u16]) -> Result<(), Refusal>
    ensures { (number_in result ≡ read_number d name.now text.now buffer.old) × (buffer.new ≡ read_buffer d name.now text.now buffer.old) }
{
    let sound = Sound::of(d)?;
    if !table::is_name(name) {
        return Err(Refusal::DeviceRecord);
    }
    let program = d.words as usize;
    if buffer.len() != program + READING_TAIL {
        return Err(Refusal::BufferLength);
    }
    let lines = judge_text(sound, name, text)?;
    store(program, lines, buffer);
    Ok(())
}

// The ID on line 1 of either form; 14 where line 1 is of neither.
pub fn read_id(text: &[u8]) -> Result<u16, Refusal>
    ensures { id_told result ≡ first_line text.now }
{
    match read_line(text) {
        Some(first) => Ok(first.id),
        None => Err(Refusal::Sheet),
    }
}

// The lines after line 1 of a sheet under a sound record with this name; 14, 18 or 19 where it is none.
fn judge_text<'a>(sound: Sound, name: &[u8], text: &'a [u8]) -> Result<&'a [u8], Refusal>
    ensures number { number_in result ≡ sheet_number sound.device name.now text.now }
    ensures lines { IfOk result (λ lines. lines.now ≡ rest_in text.now) }
{
    let d = sound.device;
    let Some(first) = read_line(text) else {
        return Err(Refusal::Sheet);
    };
    if !device::fits(d, first.id) || !places_ok(d.words, first.rest) {
        return Err(Refusal::Sheet);
    }
    if let Some(label) = first.label {
        if label.name != name {
            return Err(Refusal::WrongName);
        }
        if sum_in(sound, first.rest) != label.sum {
            return Err(Refusal::WrongSheetSum);
        }
    }
    Ok(first.rest)
}

// The checksum of the words in a sheet's lines. They are stored aside, since a refusal leaves the caller's buffer.
fn sum_in(sound: Sound, body: &[u8]) -> u16
    requires { body_ok sound.device.words body.now ≡ true }
    ensures { result ≡ checksum_of sound.device (body_words sound.device.words body.now) }
{
    let d = sound.device;
    let mut words = [0u16; LONGEST_READING];
    let program = d.words as usize;
    let count = program + READING_TAIL;
    store(program, body, &mut words[..count]);
    judge::checksum(d, &words[..count]).unwrap()
}
