// The fields of a request, taken one after another, each with the space that parts it from what stands before it.
ghost use Rattle.std.specs.Prelude.{◌<◌};

use crate::wrong::Wrong;
use device::Device;
use std::num::TryFromIntError;

// The most bytes of a field that holds HEX text: the longest text that is read, and one more.
const MOST_HEX: usize = 524289;

// The most bytes of any other field.
const MOST_BYTES: usize = 262144;

// The most words of a field.
const MOST_WORDS: usize = 65536;

// What is left of a request, and of the room that is lent for its bytes and words.
#[derive(Drop)]
pub struct Fields<'a> {
    line: &'a [u8],
    bytes: &'a mut [u8],
    words: &'a mut [u16],
}

impl<'a> Fields<'a> {
    pub fn new(line: &'a [u8], bytes: &'a mut [u8], words: &'a mut [u16]) -> Fields<'a> {
        Fields { line, bytes, words }
    }

    // The text of a field.
    fn text(&mut self) -> Result<&'a [u8], Wrong> {
        if self.line.first() != Some(&b' ') {
            return Err(Wrong::Malformed);
        }
        let line = &self.line[1..];
        let end = line.iter().position(|c| *c == b' ').unwrap_or(line.len());
        let (text, rest) = line.split_at(end);
        self.line = rest;
        Ok(text)
    }

    // A number that its type holds.
    pub fn number<T: TryFrom<u64, Error = TryFromIntError>>(&mut self) -> Result<T, Wrong> {
        let n = decimal(self.text()?).and_then(|n| T::try_from(n).ok());
        n.ok_or(Wrong::Malformed)
    }

    // The six numbers of a device record.
    pub fn device(&mut self) -> Result<Device, Wrong> {
        Ok(Device {
            id: self.number()?,
            words: self.number()?,
            row: self.number()?,
            mask1: self.number()?,
            mask2: self.number()?,
            idmask: self.number()?,
        })
    }

    // Bytes, or none.
    pub fn bytes(&mut self) -> Result<&'a mut [u8], Wrong> {
        self.bytes_up_to(MOST_BYTES)
    }

    // Bytes of HEX text, or none.
    pub fn hex_text(&mut self) -> Result<&'a mut [u8], Wrong> {
        self.bytes_up_to(MOST_HEX)
    }

    fn bytes_up_to(&mut self, most: usize) -> Result<&'a mut [u8], Wrong> {
        let byte = |digits: &[u8]| numerals::hex::byte(digits, 0);
        list::<_, _, 2>(self.text()?, most, &mut self.bytes, byte).ok_or(Wrong::Malformed)
    }

    // Words, or none.
    pub fn words(&mut self) -> Result<&'a mut [u16], Wrong> {
        let word = |digits: &[u8]| numerals::hex::word(digits, 0);
        list::<_, _, 4>(self.text()?, MOST_WORDS, &mut self.words, word).ok_or(Wrong::Malformed)
    }

    // Nothing is left of the request.
    pub fn end(&self) -> Result<(), Wrong> {
        if self.line.is_empty() {
            Ok(())
        } else {
            Err(Wrong::Malformed)
        }
    }
}

// The number of a text: 0, or digits that do not begin with 0.
fn decimal(text: &[u8]) -> Option<u64> {
    match text {
        [b'0'] => Some(0),
        [b'1'..=b'9', ..] => text.iter().try_fold(0u64, |n, c| match c {
            b'0'..=b'9' => n.checked_mul(10)?.checked_add(u64::from(c - b'0')),
            _ => None,
        }),
        _ => None,
    }
}

// The numbers of so many digits each that a text holds, put at the front of the room, which is left with the rest; a dash stands for none.
fn list<'a, T: Copy, V: Fn(&[u8]) -> Option<T>, const DIGITS: usize>(
    text: &[u8],
    most: usize,
    room: &mut &'a mut [T],
    value: V,
) -> Option<&'a mut [T]>
    requires some { 0 < DIGITS }
    requires is_always_callable { V.IsAlwaysCallable value }
{
    if text == b"-".as_slice() {
        return room.split_off_mut(..0);
    }
    let n = text.len() / DIGITS;
    if n == 0 || most < n || text.len() % DIGITS != 0 {
        return None;
    }
    let taken = room.split_off_mut(..n)?;
    for (slot, digits) in taken.iter_mut().zip(text.chunks_exact(DIGITS)) {
        *slot = value(digits)?;
    }
    Some(taken)
}
