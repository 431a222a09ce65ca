// The sheet writers: every part is stored where the one before it ends.
ghost use Rattle.std.specs.Prelude.{◌≡◌, [], ◌∷◌, ◌++◌, ◌+◌, ◌*◌, ◌/◌, ◌≤◌, length};
ghost use Rattle.std.proofs.lemmas.List.Edits.{sets};
ghost use Rattle.numerals.specs.Text.{tab, lf};
ghost use Rattle.numerals.specs.Hex.{word_text};
ghost use Rattle.device.specs.Memory.{reading_tail};
ghost use Rattle.device.specs.Record.{most_words};
ghost use Rattle.sheet.specs.FirstLine.{new_line};
ghost use Rattle.sheet.specs.Sheet.{fields, line_text, program_lines, body_text, body_length, most_program_lines};
ghost use Rattle.sheetwrite.specs.Write.{written, written_text, new_written, new_written_text, written_told};

use crate::{LF, TAB};
use device::{Device, Sound};
use numerals::hex;
use refusal::Refusal;
use words::CONFIG_BASE;

// Writes the sheet of a reading in the old form and answers its length: 13, 21 or 26 where it cannot, and then nothing is written.
pub fn write_sheet(d: Device, reading: &[u16], out: &mut [u8]) -> Result<usize, Refusal>
    ensures { (written_told result ≡ written d reading.now out.old) × (out.new ≡ written_text d reading.now out.old) }
{
    Sound::of(d)?;
    if !device::is_reading(d.words, reading) {
        return Err(Refusal::Reading);
    }
    let length = 5 + body_length(d.words);
    if out.len() < length {
        return Err(Refusal::NoRoom);
    }
    hex::put_word(out, 0, d.id);
    hex::put(out, 4, LF);
    put_body(out, 5, d.words, reading);
    Ok(length)
}

// Writes the sheet of a reading in the new form, with its name and checksum, and answers its length: 13, 21 or 26 where it cannot, and then nothing is written.
pub fn write_new_sheet(
    d: Device,
    name: &[u8],
    reading: &[u16],
    out: &mut [u8],
) -> Result<usize, Refusal>
    ensures { (written_told result ≡ new_written d name.now reading.now out.old) × (out.new ≡ new_written_text d name.now reading.now out.old) }
{
    if !table::is_name(name) {
        return Err(Refusal::DeviceRecord);
    }
    let sum = judge::checksum(d, reading)?;
    let whole = 11 + name.len() + body_length(d.words);
    if out.len() < whole {
        return Err(Refusal::NoRoom);
    }
    put_first(out, d.id, name, sum);
    put_body(out, 11 + name.len(), d.words, reading);
    Ok(whole)
}

// The length of the lines after line 1.
#[tactic(auto, unfolding(sheet::specs::Sheet::body_length))]
fn body_length(words: u16) -> usize
    ensures { (result ≡ body_length words) × (result ≤ 400000) }
{
    45 * (words as usize / 8) + 50
}

// Line 1 of the new form: the ID, the name, the sum.
fn put_first(out: &mut [u8], id: u16, name: &[u8], sum: u16)
    requires { 11 + length name.now ≤ length out.old }
    ensures { out.new ≡ sets out.old 0 (new_line id name.now sum) }
{
    hex::put_word(out, 0, id);
    hex::put(out, 4, TAB);
    put_name(out, name);
    put_sum(out, 5 + name.len(), sum);
}

// The name after the first tab.
fn put_name(out: &mut [u8], name: &[u8])
    requires { 5 + length name.now ≤ length out.old }
    ensures { out.new ≡ sets out.old 5 name.now }
{
    let end = 5 + name.len();
    out[5..end].copy_from_slice(name);
}

// A tab, the sum, LF.
fn put_sum(out: &mut [u8], at: usize, sum: u16)
    requires { at + 6 ≤ length out.old }
    ensures { out.new ≡ sets out.old at (tab ∷ (word_text sum ++ (lf ∷ []))) }
{
    hex::put(out, at, TAB);
    hex::put_word(out, at + 1, sum);
    hex::put(out, at + 5, LF);
}

// The lines after line 1.
fn put_body(out: &mut [u8], at: usize, words: u16, reading: &[u16])
    requires { (words ≤ most_words) × (at + body_length words ≤ length out.old) × (length reading.now ≡ words + reading_tail) }
    ensures { out.new ≡ sets out.old at (body_text words reading.now) }
{
    let (program, config) = reading.split_at(words as usize);
    put_lines(out, at, program);
    put_line(out, at + 45 * (program.len() / 8), CONFIG_BASE, config);
}

// The program lines, eight words each.
fn put_lines(out: &mut [u8], at: usize, words: &[u16])
    requires { (length words.now ≤ most_words) × (at + 45 * (length words.now / 8) ≤ length out.old) }
    ensures { out.new ≡ sets out.old at (program_lines (length words.now / 8) 0 words.now) }
{
    for (k, eight) in words.chunks_exact(8).enumerate() {
        put_line(out, at + 45 * k, (8 * k) as u16, eight);
    }
}

// An address, the words, LF.
fn put_line(out: &mut [u8], at: usize, address: u16, words: &[u16])
    requires { at + 5 + 5 * length words.now ≤ length out.old }
    ensures { out.new ≡ sets out.old at (line_text address (length words.now) 0 words.now) }
{
    hex::put_word(out, at, address);
    put_fields(out, at + 4, words);
    hex::put(out, at + 4 + 5 * words.len(), LF);
}

// The words, a tab before each.
fn put_fields(out: &mut [u8], at: usize, words: &[u16])
    requires { at + 5 * length words.now ≤ length out.old }
    ensures { out.new ≡ sets out.old at (fields (length words.now) 0 words.now) }
{
    for (k, word) in words.iter().enumerate() {
        hex::put(out, at + 5 * k, TAB);
        hex::put_word(out, at + 5 * k + 1, *word);
    }
}
