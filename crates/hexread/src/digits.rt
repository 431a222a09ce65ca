// The values of hex digits, looked up in a table that stays where it is.
ghost use Rattle.std.specs.Prelude.{◌≡◌};
ghost use Rattle.words.specs.Choice.{below};
ghost use Rattle.words.specs.Lists.{build};
ghost use Rattle.numerals.specs.Hex.{digit_of, joined};

#[derive(Drop)]
pub(crate) struct Digits {
    values: [u8; 256],
    ghost told: { values ≡ build 256 digit_of },
}

impl Digits {
    pub(crate) fn new() -> Digits {
        Digits {
            values: numerals::hex::digits(),
        }
    }

    // The byte of two digits.
    pub(crate) fn byte(&self, high: u8, low: u8) -> Option<u8>
        ensures { result ≡ below 256 (joined 16 (digit_of high) (digit_of low)) }
    {
        let high = self.value(high);
        let low = self.value(low);
        if 16 <= (high | low) {
            return None;
        }
        Some(16 * high + low)
    }

    // The value of a character; 16 where it is no digit, (a) as the table that numerals::hex::digits gives has it.
    fn value(&self, c: u8) -> u8
        ensures { result ≡ digit_of c }
    {
        self.values[usize::from(c)]
    }
}
