// The column at which a line is refused, looked for only then.
ghost use Rattle.std.specs.Prelude.{◌≡◌, ◌+◌, ◌*◌, ◌≤◌, ◌<◌, length};
ghost use Rattle.hexread.specs.Line.{count_of};
ghost use Rattle.hexread.specs.Column.{can_stand, bad_column};
ghost use Rattle.hexread.specs.Reader.{most_text};
ghost use Rattle.hexread.specs.LawsFault.{fault_column};

use crate::fault::Fault;
use refusal::Refusal;

impl Fault {
    // Its column in the line that it refuses.
    pub(crate) fn column(self, line: &[u8]) -> u32
        requires { length line.now ≤ most_text }
        ensures { result ≡ fault_column self line.now }
    {
        match self {
            Fault::Line(refusal) => match refusal {
                Refusal::NotARecord => bad_column(line),
                _ => 1,
            },
            Fault::Word(refused) => 10 + 4 * u32::from(refused.word),
        }
    }
}

// The first character that cannot stand in its place, or one past the line's end.
fn bad_column(line: &[u8]) -> u32
    requires { length line.now ≤ most_text }
    ensures { result ≡ bad_column line.now }
{
    let most = 1 + 2 * (count_of(line) + 5);
    for i in 0..line.len() {
        if !can_stand(line, most, i) {
            return (i + 1) as u32;
        }
    }
    (line.len() + 1) as u32
}

// The first byte after the colon; 256 where two digits do not stand there, (a) as the definition of count_of has it.
fn count_of(line: &[u8]) -> usize
    ensures count { result ≡ count_of line.now }
    ensures most { result ≤ 256 }
{
    match numerals::hex::byte(line, 1) {
        Some(count) => usize::from(count),
        None => 256,
    }
}

// Whether the character at a place, counted from 0, can stand there; LL gives a line `most` characters.
fn can_stand(line: &[u8], most: usize, i: usize) -> bool
    requires { (i < length line.now) × (most ≡ 1 + 2 * (count_of line.now + 5)) }
    ensures { result ≡ can_stand line.now i }
{
    let is_digit = numerals::hex::digit(line[i]).is_some();
    if i == 0 {
        line[i] == b':'
    } else if i < 3 {
        is_digit
    } else {
        i < most && is_digit
    }
}
