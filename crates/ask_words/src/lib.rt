// Requests on words, addresses and the text of numbers.
#![tactic(auto)]

mod address;
mod text;

use ask::{Answer, Fields, Wrong};
use numerals::hex;

// Puts the answer to a request of the crates words, numerals and marks.
pub fn answer(name: &[u8], fields: &mut Fields, out: &mut Answer) -> Result<(), Wrong> {
    match name {
        b"words.double" => address::double(fields, out),
        b"words.halve" => address::halve(fields, out),
        b"words.entry_of" => address::entry_of(fields, out),
        b"words.address_of" => address::address_of(fields, out),
        b"words.is_words" => address::is_words(fields, out),
        b"words.digit" => text::digit(fields, out, hex::digit),
        b"words.capital" => text::digit(fields, out, hex::capital),
        b"words.digits" => text::digits(fields, out),
        b"words.byte" => text::value(fields, out, |s, at| hex::byte(s, at).map_or(256, u32::from)),
        b"words.word" => text::value(
            fields,
            out,
            |s, at| hex::word(s, at).map_or(65536, u32::from),
        ),
        b"words.capital_byte" => {
            text::value(
                fields,
                out,
                |s, at| hex::capital_byte(s, at).map_or(256, u32::from),
            )
        }
        b"words.capital_word" => {
            text::value(
                fields,
                out,
                |s, at| hex::capital_word(s, at).map_or(65536, u32::from),
            )
        }
        b"words.put" => text::store(fields, out, hex::put),
        b"words.put_byte" => text::store(fields, out, hex::put_byte),
        b"words.put_word" => text::store(fields, out, hex::put_word),
        b"words.decimal" => text::decimal(fields, out),
        b"words.find" => text::find(fields, out),
        _ => Err(Wrong::UnknownName),
    }
}
