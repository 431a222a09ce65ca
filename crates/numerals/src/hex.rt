// Hex digits, read from text and put into it.
ghost use Rattle.std.specs.Prelude.{◌≡◌, ◌<◌, set};
ghost use Rattle.std.proofs.lemmas.List.Edits.{sets};
ghost use Rattle.words.specs.Choice.{below};
ghost use Rattle.words.specs.Lists.{build};
ghost use Rattle.numerals.specs.Hex.{digit_of, capital_of, digit_by, byte_by, word_by, digit_text, byte_text, word_text};

// The value of a hex digit of either case. Of these tests the compiler makes `digits` a constant; of one match on the ranges it does not, and each call of it costs 4,400 instructions.
#[tactic(auto, using(crate::specs::LawsHex::digit_told))]
pub fn digit(c: u8) -> Option<u8>
    ensures { result ≡ below 16 (digit_of c) }
{
    if matches!(c, b'0'..=b'9') {
        Some(c - b'0')
    } else if matches!(c, b'A'..=b'F') {
        Some(c - b'A' + 10)
    } else if matches!(c, b'a'..=b'f') {
        Some(c - b'a' + 10)
    } else {
        None
    }
}

// The value of every character as a hex digit of either case, 16 for those that are none: a table to look many up in.
pub fn digits() -> [u8; 256]
    ensures { result ≡ build 256 digit_of }
{
    let mut table = [16u8; 256];
    for (c, value) in table.iter_mut().enumerate() {
        *value = digit(c as u8).unwrap_or(16);
    }
    table
}

// The value of a digit 0-9 or A-F.
#[tactic(auto, using(crate::specs::LawsHex::capital_told))]
pub fn capital(c: u8) -> Option<u8>
    ensures { result ≡ below 16 (capital_of c) }
{
    if c < b'a' { digit(c) } else { None }
}

// The two digits at a place, of either case.
pub fn byte(s: &[u8], at: usize) -> Option<u8>
    ensures { result ≡ below 256 (byte_by digit_of s.now at) }
{
    byte_by::<false>(s, at)
}

// The four digits at a place, of either case.
pub fn word(s: &[u8], at: usize) -> Option<u16>
    ensures { result ≡ below 65536 (word_by digit_of s.now at) }
{
    word_by::<false>(s, at)
}

// The two capital digits at a place.
pub fn capital_byte(s: &[u8], at: usize) -> Option<u8>
    ensures { result ≡ below 256 (byte_by capital_of s.now at) }
{
    byte_by::<true>(s, at)
}

// The four capital digits at a place.
pub fn capital_word(s: &[u8], at: usize) -> Option<u16>
    ensures { result ≡ below 65536 (word_by capital_of s.now at) }
{
    word_by::<true>(s, at)
}

// A digit by one of the two readings.
fn digit_by<const CAPITAL: bool>(c: u8) -> Option<u8>
    ensures { result ≡ below 16 (digit_by CAPITAL c) }
{
    if CAPITAL { capital(c) } else { digit(c) }
}

fn byte_by<const CAPITAL: bool>(s: &[u8], at: usize) -> Option<u8>
    ensures { result ≡ below 256 (byte_by (digit_by CAPITAL) s.now at) }
{
    let high = digit_by::<CAPITAL>(*s.get(at)?)?;
    let low = digit_by::<CAPITAL>(*s.get(at + 1)?)?;
    Some(16 * high + low)
}

fn word_by<const CAPITAL: bool>(s: &[u8], at: usize) -> Option<u16>
    ensures { result ≡ below 65536 (word_by (digit_by CAPITAL) s.now at) }
{
    let high = byte_by::<CAPITAL>(s, at)?;
    let low = byte_by::<CAPITAL>(s, at + 2)?;
    Some(u16::from_be_bytes([high, low]))
}

// Puts the two capital digits of a byte at a place, each only if it is within the text.
pub fn put_byte(out: &mut [u8], at: usize, b: u8)
    ensures { out.new ≡ sets out.old at (byte_text b) }
{
    if at < out.len() {
        put(out, at, digit_text(b / 16));
        put(out, at + 1, digit_text(b % 16));
    }
}

// Puts the four capital digits of a number at a place, each only if it is within the text.
pub fn put_word(out: &mut [u8], at: usize, w: u16)
    ensures { out.new ≡ sets out.old at (word_text w) }
{
    let [high, low] = w.to_be_bytes();
    put_byte(out, at, high);
    if at < out.len() {
        put_byte(out, at + 2, low);
    }
}

// Puts one byte at a place, if the place is within the text.
pub fn put(out: &mut [u8], at: usize, b: u8)
    ensures { out.new ≡ set out.old at b }
{
    if at < out.len() {
        out[at] = b;
    }
}

fn digit_text(n: u8) -> u8
    requires { n < 16 }
    ensures { result ≡ digit_text n }
{
    if n < 10 { b'0' + n } else { b'A' + (n - 10) }
}
