// Decimal numbers without a leading zero.
ghost use Rattle.std.specs.Prelude.{◌≡◌, ◌+◌, ◌≤◌};
ghost use Rattle.words.specs.Choice.{below};
ghost use Rattle.numerals.specs.Decimal.{decimal_of};
ghost use Rattle.numerals.specs.LawsDecimal.{left_of};

// The number that a text gives, if it is a decimal up to the bound.
#[tactic(auto, using(crate::specs::LawsDecimal::decimal_told))]
pub fn read(s: &[u8], bound: u32) -> Option<u32>
    ensures { result ≡ below (bound + 1) (decimal_of bound s.now) }
{
    if s.is_empty() || (1 < s.len() && s[0] == b'0') {
        return None;
    }
    read_digits(s, bound)
}

// The digits of a text, as far as they do not pass the bound.
fn read_digits(s: &[u8], bound: u32) -> Option<u32>
    ensures { result ≡ below (bound + 1) (left_of bound 0 s.now) }
{
    let mut value: u64 = 0;
    for c in s {
        if !c.is_ascii_digit() {
            return None;
        }
        value = 10 * value + u64::from(*c - b'0');
        if u64::from(bound) < value {
            return None;
        }
    }
    Some(value as u32)
}
