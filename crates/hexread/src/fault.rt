// What refuses a line, or a word in it.
ghost use Rattle.std.specs.Prelude.{◌≡◌};
ghost use Rattle.hexread.specs.LawsFault.{refusal_of};

use refusal::Refusal;

// A word of a record's data that is refused by 7, 8 or 9, counted from 0.
#[derive(Clone, Copy)]
pub(crate) struct RefusedWord {
    pub refusal: Refusal,
    pub word: u8,
}

#[derive(Clone, Copy)]
pub(crate) enum Fault {
    Line(Refusal),
    Word(RefusedWord),
}

impl Fault {
    pub(crate) fn refusal(self) -> Refusal
        ensures { result ≡ refusal_of self }
    {
        match self {
            Fault::Line(refusal) => refusal,
            Fault::Word(refused) => refused.refusal,
        }
    }
}

impl From<Refusal> for Fault {
    ghost use Rattle.hexread.specs.declared.fault.Fault.TheVariants.{Line};

    ghost from_gives = { λ e f. f ≡ Line e };

    fn from(refusal: Refusal) -> Fault {
        Fault::Line(refusal)
    }
}

impl From<RefusedWord> for Fault {
    ghost use Rattle.hexread.specs.declared.fault.Fault.TheVariants.{Word};

    ghost from_gives = { λ w f. f ≡ Word w };

    fn from(refused: RefusedWord) -> Fault {
        Fault::Word(refused)
    }
}
