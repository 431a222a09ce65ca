// What is wrong with a request.
use std::fmt;

#[derive(Clone, Copy, Debug, PartialEq, Eq)]
pub enum Wrong {
    UnknownName,
    Malformed,
    TooLong,
    Unended,
}

impl fmt::Display for Wrong {
    fn fmt<W: fmt::Write>(&self, f: &mut fmt::Formatter<W>) -> fmt::Result {
        match self {
            Wrong::UnknownName => write!(f, "no request has this name"),
            Wrong::Malformed => write!(f, "a field is missing, too many or not of its kind"),
            Wrong::TooLong => write!(f, "the line is too long"),
            Wrong::Unended => write!(f, "the input ends inside a line"),
        }
    }
}

// An answer has no more room.
impl From<fmt::Error> for Wrong {
    fn from(_e: fmt::Error) -> Wrong {
        Wrong::Malformed
    }
}
