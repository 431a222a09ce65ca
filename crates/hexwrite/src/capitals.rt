// The capital digits, laid out once for a whole text.
ghost use Rattle.std.specs.Prelude.{◌≡◌, ◌<◌};
ghost use Rattle.words.specs.Lists.{build};
ghost use Rattle.numerals.specs.Hex.{digit_text};

#[derive(Drop)]
pub(crate) struct Capitals {
    digits: [u8; 16],
    ghost told: { digits ≡ build 16 digit_text },
}

impl Capitals {
    pub(crate) fn new() -> Capitals {
        Capitals {
            digits: *b"0123456789ABCDEF",
        }
    }

    pub(crate) fn digit(&self, n: u8) -> u8
        requires { n < 16 }
        ensures { result ≡ digit_text n }
    {
        self.digits[n as usize]
    }
}
