// Requests on HEX text and its lines.
#![tactic(auto)]

use ask::{Answer, Fields, Wrong};
use lines::NextLine;

// Puts the answer to a request on HEX text.
pub fn answer(name: &[u8], fields: &mut Fields, out: &mut Answer) -> Result<(), Wrong> {
    match name {
        b"ihex.read_hex" => read_hex(fields, out),
        b"ihex.write_hex" => write_hex(fields, out),
        b"ihex.next_line" => ask_line(fields, out, |s, at, n| lines::next_line(s, at, n)),
        b"ihex.line_from" => ask_line(fields, out, |s, at, n| lines::line_from(s, at, n)),
        _ => Err(Wrong::UnknownName),
    }
}

// What a reading came to, and the image that it left.
fn read_hex(fields: &mut Fields, out: &mut Answer) -> Result<(), Wrong> {
    let d = fields.device()?;
    let text = fields.hex_text()?;
    let image = fields.words()?;
    fields.end()?;
    let (number, line, column) = match hexread::read_hex(d, text, image) {
        Ok(()) => (0, 0, 0),
        Err(misread) => (misread.refusal.number(), misread.line, misread.column),
    };
    out.number(number)?;
    out.number(line)?;
    out.number(column)?;
    out.words(image)
}

fn write_hex(fields: &mut Fields, out: &mut Answer) -> Result<(), Wrong> {
    let d = fields.device()?;
    let image = fields.words()?;
    let text = fields.hex_text()?;
    fields.end()?;
    out.told(hexwrite::write_hex(d, image, text))?;
    out.bytes(text)
}

// A line of a text, by one of two calls with the same fields.
fn ask_line<L: Fn(&[u8], usize, u32) -> NextLine>(
    fields: &mut Fields,
    out: &mut Answer,
    line: L,
) -> Result<(), Wrong>
    requires { L.IsAlwaysCallable line }
{
    let text = fields.bytes()?;
    let from = fields.number()?;
    let before = fields.number()?;
    fields.end()?;
    let l = line(text, from, before);
    out.number(l.start)?;
    out.number(l.stop)?;
    out.number(l.at)?;
    out.number(l.line)
}
