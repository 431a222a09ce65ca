// What the programs print, from the start of a lent buffer: a line or a text. The answer is the length of all of it, and what has no room is not stored.
// No public call here has a `requires`.
#![tactic(auto)]

mod parts;

ghost use Rattle.print.specs.Print.{refused_text, sum_text, verdict_text, Prints};

use words::WordAddress;

pub(crate) const TAB: u8 = 9;

pub(crate) const LF: u8 = 10;

// The line of a refusal, which is all that a program prints then.
pub fn refusal(out: &mut [u8], number: u8, line: u32, column: u32) -> usize
    ensures { Prints (refused_text number line column) out.old result out.new }
{
    let first = text(out, b"refused\t");
    let second = parts::put_number(out, first, u32::from(number), TAB);
    let third = parts::put_number(out, second, line, TAB);
    parts::put_number(out, third, column, LF)
}

// The line of a checksum.
pub fn sum(out: &mut [u8], word: u16) -> usize
    ensures { Prints (sum_text word) out.old result out.new }
{
    parts::put_hex(out, 0, word, LF)
}

// The line of a verdict: 40 has the address and the count, and any other number stands alone.
pub fn verdict(out: &mut [u8], number: u8, address: WordAddress, count: u32) -> usize
    ensures { Prints (verdict_text number address.0 count) out.old result out.new }
{
    if number == 40 {
        let first = parts::put_number(out, 0, 40, TAB);
        let second = parts::put_hex(out, first, address.0, TAB);
        return parts::put_number(out, second, count, LF);
    }
    parts::put_number(out, 0, u32::from(number), LF)
}

// A text as it stands. Byte by byte, so that the check sees each of them stored: of a copy as a whole it sees none that is left out.
pub fn text(out: &mut [u8], text: &[u8]) -> usize
    ensures { Prints text.now out.old result out.new }
{
    for i in 0..text.len() {
        numerals::hex::put(out, i, text[i]);
    }
    text.len()
}
