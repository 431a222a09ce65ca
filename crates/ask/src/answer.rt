// The fields of an answer, put one after another, each with the space before it.
ghost use Rattle.std.specs.Prelude.{◌<◌, ◌≤◌, length};

use crate::wrong::Wrong;
use refusal::{Refusal, number_in};
use std::fmt;
use std::fmt::{Display, Write};
use table::Found;

// An answer in a lent buffer, and how long it is so far.
#[derive(Drop)]
pub struct Answer<'a> {
    out: &'a mut [u8],
    at: usize,
    ghost within: { at ≤ length out.now },
}

impl<'a> Answer<'a> {
    pub fn new(out: &'a mut [u8]) -> Answer<'a> {
        Answer { out, at: 0 }
    }

    // What has been put.
    pub fn written(&self) -> &[u8] {
        &self.out[..self.at]
    }

    // A text as it stands.
    pub fn text(&mut self, s: &[u8]) -> Result<(), Wrong> {
        if self.out.len() - self.at < s.len() {
            return Err(Wrong::Malformed);
        }
        let end = self.at + s.len();
        self.out[self.at..end].copy_from_slice(s);
        self.at = end;
        Ok(())
    }

    // A number in decimal digits.
    pub fn number(&mut self, n: impl Display + Drop) -> Result<(), Wrong> {
        write!(self, " {n}")?;
        Ok(())
    }

    // The number of a refusal and 0, or 0 and a value.
    pub fn told<T: Display + Default + Drop>(
        &mut self,
        answer: Result<T, Refusal>,
    ) -> Result<(), Wrong> {
        self.number(number_in(&answer))?;
        self.number(answer.unwrap_or_default())
    }

    // A record, and where its name stands in its table; zeros for none.
    pub fn found(&mut self, found: Option<Found>) -> Result<(), Wrong> {
        let Some(found) = found else {
            return self.text(b" 0 0 0 0 0 0 0 0");
        };
        let d = found.device;
        for n in [d.id, d.words, d.row, d.mask1, d.mask2, d.idmask] {
            self.number(n)?;
        }
        self.number(found.name_at)?;
        self.number(found.name_len)
    }

    // Bytes, or none.
    pub fn bytes(&mut self, s: &[u8]) -> Result<(), Wrong> {
        self.list::<_, _, 2>(
            s,
            |digits: &mut [u8], b| numerals::hex::put_byte(digits, 0, b),
        )
    }

    // Words, or none.
    pub fn words(&mut self, s: &[u16]) -> Result<(), Wrong> {
        self.list::<_, _, 4>(
            s,
            |digits: &mut [u8], w| numerals::hex::put_word(digits, 0, w),
        )
    }

    // Numbers of so many digits each, put in place, since a list is most of a long answer; a dash stands for none.
    fn list<T: Copy, P: Fn(&mut [u8], T), const DIGITS: usize>(
        &mut self,
        numbers: &[T],
        put: P,
    ) -> Result<(), Wrong>
        requires some { 0 < DIGITS }
        requires callable { P.IsAlwaysCallable put }
    {
        if numbers.is_empty() {
            return self.text(b" -");
        }
        self.text(b" ")?;
        let Some(length) = numbers.len().checked_mul(DIGITS) else {
            return Err(Wrong::Malformed);
        };
        if self.out.len() - self.at < length {
            return Err(Wrong::Malformed);
        }
        let end = self.at + length;
        put_all::<_, _, DIGITS>(&mut self.out[self.at..end], numbers, put);
        self.at = end;
        Ok(())
    }
}

// Numbers of so many digits each, one after another.
fn put_all<T: Copy, P: Fn(&mut [u8], T), const DIGITS: usize>(out: &mut [u8], numbers: &[T], put: P)
    requires some { 0 < DIGITS }
    requires callable { P.IsAlwaysCallable put }
{
    for (digits, n) in out.chunks_exact_mut(DIGITS).zip(numbers) {
        put(digits, *n);
    }
}

impl fmt::Write for Answer<'_> {
    fn write_str(&mut self, s: &str) -> fmt::Result {
        self.text(s.as_bytes()).map_err(|_| fmt::Error)
    }
}
