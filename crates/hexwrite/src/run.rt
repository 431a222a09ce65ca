// The runs of given words in an image, found one after the other.
ghost use Rattle.std.specs.Prelude.{◌≡◌, ◌+◌, ◌*◌, ◌/◌, ◌≤◌, ◌<◌, length};

use words::{ByteAddress, NOT_GIVEN};

// A record without data: a colon, the digits of five bytes, LF.
pub(crate) const EMPTY: usize = 12;

// An upper half's record, which has two bytes of data.
const UPPER: usize = 16;

// Neighbours in one aligned block of sixteen bytes, the entry past them, and the byte address of the first.
#[derive(Clone, Copy)]
pub(crate) struct Run<'a> {
    pub words: &'a [u16],
    pub stop: usize,
    pub address: ByteAddress,
    ghost some: { 0 < length words.now },
    ghost few: { length words.now ≤ 8 },
    ghost below: { address.0 < 0x20000 },
}

impl<'a> Run<'a> {
    ghost use Rattle.hexwrite.specs.LawsWrite.{upper_text};

    // The upper half of its byte addresses.
    pub(crate) fn upper(&self) -> u16
        ensures { result ≡ self.now.address.0 / 65536 }
    {
        (self.address.0 / 65536) as u16
    }

    // The length of its records, after this upper half.
    pub(crate) fn length(&self, upper: u16) -> usize
        ensures { (result ≡ length (upper_text upper (self.now.address.0 / 65536)) + (12 + 4 * length self.now.words.now)) × (result ≤ 60) }
    {
        let data = EMPTY + 4 * self.words.len();
        if self.upper() == upper {
            data
        } else {
            UPPER + data
        }
    }
}
