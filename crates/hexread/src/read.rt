// Reading HEX text into an image: the lines one after another, each looked at once.
ghost use Rattle.std.specs.Prelude.{◌≡◌, ◌+◌, ◌≤◌, length};
ghost use Rattle.device.specs.Memory.{reading_tail};
ghost use Rattle.hexread.specs.Reader.{most_text, read_told, HexRead};
ghost use Rattle.hexread.specs.LawsReader.{LinesRead};

use crate::reader::Reader;
use crate::{MOST_TEXT, Misread};
use device::{Device, READING_TAIL};
use lines::line_from;
use refusal::Refusal;
use words::NOT_GIVEN;

// Reads the words that a HEX text gives. A refused text leaves every entry 'not given'; 12 and 13 leave the image as it was.
pub fn read_hex(d: Device, text: &[u8], image: &mut [u16]) -> Result<(), Misread>
    ensures { HexRead d text.now image.old (read_told result) image.new }
{
    if let Err(refusal) = device::judge(d) {
        return Err(at_no_line(refusal));
    }
    if image.len() != usize::from(d.words) + READING_TAIL {
        return Err(at_no_line(Refusal::BufferLength));
    }
    image.fill(NOT_GIVEN);
    if MOST_TEXT < text.len() {
        return Err(at_no_line(Refusal::TextTooLong));
    }
    let read = read_lines(d.words, text, image);
    if read.is_err() {
        image.fill(NOT_GIVEN);
    }
    read
}

// A refusal for which no line is to blame.
fn at_no_line(refusal: Refusal) -> Misread
    ensures { result ≡ record { refusal = refusal; line = 0; column = 0 } }
{
    Misread {
        refusal,
        line: 0,
        column: 0,
    }
}

// The lines of a text until one is refused, whose column is looked for then; 10 if no end record came.
fn read_lines(words: u16, text: &[u8], image: &mut [u16]) -> Result<(), Misread>
    requires { (length image.old ≡ words + reading_tail) × (length text.now ≤ most_text) }
    ensures { LinesRead words text.now image.old (read_told result) image.new }
{
    let mut reader = Reader::new(words);
    let mut bytes = [0; 260];
    let mut at = 0;
    let mut number: u32 = 0;
    while at < text.len() {
        let next = line_from(text, at, number);
        let line = &text[at..next.stop];
        if let Err(fault) = reader.take_line(line, &mut bytes, image) {
            return Err(Misread {
                refusal: fault.refusal(),
                line: next.line,
                column: fault.column(line),
            });
        }
        at = next.at;
        number = next.line;
    }
    if reader.ended() {
        Ok(())
    } else {
        Err(at_no_line(Refusal::NoEndRecord))
    }
}
