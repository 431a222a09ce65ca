// The lines of a sheet after line 1, judged place by place before a word is stored.
ghost use Rattle.std.specs.Prelude.{◌≡◌, true, ◌+◌, ◌*◌, ◌≤◌, ◌<◌, length};
ghost use Rattle.device.specs.Memory.{reading_tail, reading_ok};
ghost use Rattle.device.specs.Record.{most_words};
ghost use Rattle.sheet.specs.Sheet.{most_program_lines, digits_at, body_words};
ghost use Rattle.sheet.specs.LawsPlaces.{field_ok, fields_ok, sheet_line_ok, lines_ok, places_ok};

use crate::first::byte_is;
use crate::{LF, TAB};
use device::READING_TAIL;
use numerals::hex;
use words::{CONFIG_BASE, WORD_LIMIT};

// Whether the lines have the length of a sheet's and everything in them stands at its place.
#[tactic(auto, using(words::specs::LawsChoice::tests), unfolding(crate::specs::LawsPlaces::places_ok))]
pub(crate) fn places_ok(words: u16, text: &[u8]) -> bool
    requires { words ≤ most_words }
    ensures { result ≡ places_ok words text.now }
{
    let lines = words as usize / 8;
    text.len() == 45 * lines + 50
        && lines_ok(text, lines)
        && line_ok(text, 45 * lines, CONFIG_BASE, READING_TAIL)
}

// The program lines, each with its address.
fn lines_ok(text: &[u8], lines: usize) -> bool
    requires { (lines ≤ most_program_lines) × (45 * lines ≤ length text.now) }
    ensures { result ≡ lines_ok text.now lines }
{
    for k in 0..lines {
        if !line_ok(text, 45 * k, (8 * k) as u16, 8) {
            return false;
        }
    }
    true
}

// An address, so many words, LF.
#[tactic(auto, using(words::specs::LawsChoice::tests), unfolding(crate::specs::LawsPlaces::sheet_line_ok))]
fn line_ok(text: &[u8], at: usize, address: u16, count: usize) -> bool
    requires { at + 5 + 5 * count ≤ length text.now }
    ensures { result ≡ sheet_line_ok text.now at address count }
{
    if hex::capital_word(text, at) != Some(address) {
        return false;
    }
    fields_ok(text, at + 4, count) && byte_is(text, at + 4 + 5 * count, LF)
}

// So many words, a tab before each.
fn fields_ok(text: &[u8], at: usize, count: usize) -> bool
    requires { at + 5 * count ≤ length text.now }
    ensures { result ≡ fields_ok text.now at count }
{
    for k in 0..count {
        if !field_ok(text, at + 5 * k) {
            return false;
        }
    }
    true
}

// A tab and a word.
#[tactic(auto, using(words::specs::LawsChoice::tests), unfolding(crate::specs::LawsPlaces::field_ok, words::specs::Word::is_word))]
fn field_ok(text: &[u8], at: usize) -> bool
    requires { at < length text.now }
    ensures { result ≡ field_ok text.now at }
{
    let Some(word) = hex::capital_word(text, at + 1) else {
        return false;
    };
    byte_is(text, at, TAB) && word < WORD_LIMIT
}

// Stores the words of lines that were judged.
pub(crate) fn store(program: usize, text: &[u8], buffer: &mut [u16])
    requires { (program ≤ most_words) × (length buffer.old ≡ program + reading_tail) × (reading_ok program (body_words program text.now) ≡ true) }
    ensures { buffer.new ≡ body_words program text.now }
{
    for (i, word) in buffer.iter_mut().enumerate() {
        *word = hex::capital_word(text, digits_at(program, i)).unwrap();
    }
}

// Where the digits of a word stand.
#[tactic(auto, using(crate::specs::LawsRead::digits_low, crate::specs::LawsRead::digits_high))]
fn digits_at(program: usize, i: usize) -> usize
    requires { (program ≤ most_words) × (i < program + reading_tail) }
    ensures { result ≡ digits_at program i }
{
    if i < program {
        45 * (i / 8) + 5 * (i % 8) + 5
    } else {
        45 * (program / 8) + 5 * (i - program) + 5
    }
}
