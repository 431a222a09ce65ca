// The lines of standard input, and why no more of them are answered.
#![tactic(auto)]

ghost use Rattle.std.specs.Prelude.{◌≡◌, ◌<◌, ◌≤◌, ◌↔◌, length, take, IfOk, IsOk, IsErrOf};

use ask::Wrong;
use std::io::Read;
use std::{fmt, io};

// The character that ends a line.
pub const LF: u8 = b'\n';

// Input and output that fail, or something wrong with a line of the input.
#[derive(Debug, Drop)]
pub enum Stop {
    Io(io::Error),
    Request { line: u64, wrong: Wrong },
}

impl fmt::Display for Stop {
    fn fmt<W: fmt::Write>(&self, f: &mut fmt::Formatter<W>) -> fmt::Result {
        match self {
            Stop::Io(e) => write!(f, "{e}"),
            Stop::Request { line, wrong } => write!(f, "line {line}: {wrong}"),
        }
    }
}

impl From<io::Error> for Stop {
    fn from(e: io::Error) -> Stop {
        Stop::Io(e)
    }
}

// Reads more after the bytes that are there, and answers how many there are then.
pub fn fill<R: Read>(input: &mut R, text: &mut [u8], have: usize) -> io::Result<usize>
    ensures more { IfOk result (λ n. have ≤ n) }
    ensures within { IfOk result (λ n. have ≤ length text.old → n ≤ length text.new) }
    ensures room { length text.new ≡ length text.old }
    ensures kept { take have text.new ≡ take have text.old }
{
    if text.len() <= have {
        return Ok(have);
    }
    let more = input.read(&mut text[have..])?;
    Ok(have + more)
}

// Moves the bytes from a place on to the front, and answers how many there are.
pub fn keep(text: &mut [u8], from: usize, have: usize) -> usize
    ensures room { length text.new ≡ length text.old }
    ensures within { result ≤ length text.new }
{
    let end = have.min(text.len());
    if end <= from {
        return 0;
    }
    text.copy_within(from..end, 0);
    end - from
}

// What is wrong with so many bytes that are left when the input ends: a line that is too long for the buffer, or one that has no end.
pub fn end(text: &[u8], have: usize) -> Result<(), Wrong>
    ensures sound { IsOk result ↔ (have ≡ 0 × 0 < length text.now) }
    ensures long { IsErrOf result Wrong.TooLong ↔ (length text.now ≤ have) }
    ensures unended { IsErrOf result Wrong.Unended ↔ (0 < have × have < length text.now) }
{
    if text.len() <= have {
        Err(Wrong::TooLong)
    } else if 0 < have {
        Err(Wrong::Unended)
    } else {
        Ok(())
    }
}
