// A text that is put into a lent buffer, and the parts of a record. Each part fits where it is put.
ghost use Rattle.std.specs.Prelude.{◌≡◌, ◌+◌, ◌≤◌, [], ◌∷◌, length};
ghost use Rattle.numerals.specs.Hex.{byte_text};
ghost use Rattle.hexwrite.specs.LawsWrite.{head_text, closing_text};
ghost use Rattle.hexwrite.specs.LawsWriter.{Puts};

use crate::capitals::Capitals;

const COLON: u8 = b':';

const LF: u8 = b'\n';

// The buffer, and the place at which the text goes on.
#[derive(Drop)]
pub(crate) struct Writer<'a> {
    out: &'a mut [u8],
    at: usize,
    capitals: Capitals,
}

impl<'a> Writer<'a> {
    pub(crate) fn new(out: &'a mut [u8]) -> Writer<'a>
        ensures same { result.out.ghost_name ≡ out.entry.ghost_name }
        ensures begins { (result.out.now ≡ out.old) × (result.at ≡ 0) }
    {
        Writer {
            out,
            at: 0,
            capitals: Capitals::new(),
        }
    }

    // Puts one character.
    fn put(&mut self, c: u8)
        requires { self.old.at + 1 ≤ length self.old.out.now }
        ensures puts { Puts (c ∷ []) self.old self.new }
        ensures moved { self.new.at ≡ self.old.at + 1 }
    {
        self.out[self.at] = c;
        self.at += 1;
    }

    // Puts the two digits of a byte.
    pub(crate) fn put_byte(&mut self, b: u8)
        requires { self.old.at + 2 ≤ length self.old.out.now }
        ensures puts { Puts (byte_text b) self.old self.new }
        ensures moved { self.new.at ≡ self.old.at + 2 }
    {
        let high = self.capitals.digit(b / 16);
        let low = self.capitals.digit(b % 16);
        self.put(high);
        self.put(low);
    }

    // Puts a colon, the count, the address and the type.
    pub(crate) fn put_head(&mut self, count: u8, high: u8, low: u8, kind: u8)
        requires { self.old.at + 9 ≤ length self.old.out.now }
        ensures puts { Puts (head_text count high low kind) self.old self.new }
        ensures moved { self.new.at ≡ self.old.at + 9 }
    {
        self.put(COLON);
        self.put_byte(count);
        self.put_byte(high);
        self.put_byte(low);
        self.put_byte(kind);
    }

    // Puts the byte that makes a record sum to 0 mod 256, and LF.
    pub(crate) fn put_sum(&mut self, sum: usize)
        requires { self.old.at + 3 ≤ length self.old.out.now }
        ensures puts { Puts (closing_text sum) self.old self.new }
        ensures moved { self.new.at ≡ self.old.at + 3 }
    {
        self.put_byte(((256 - sum % 256) % 256) as u8);
        self.put(LF);
    }
}
