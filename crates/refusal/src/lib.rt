// Why a call is refused. No call here has a `requires`.
#![tactic(auto)]

ghost use Rattle.std.specs.Prelude.{◌≡◌};
ghost use Rattle.refusal.specs.Refusal.{number_of, number_in};

// Each refusal has the number that programs print, C is answered and the bench's page explains.
#[derive(Clone, Copy, Debug, PartialEq, Eq)]
pub enum Refusal {
    // HEX text, line by line
    TextTooLong = 1,
    NotARecord = 2,
    WrongSum = 3,
    UnknownType = 4,
    WrongLengthOrAddress = 5,
    OddData = 6,
    NoSuchWord = 7,
    WordTooLarge = 8,
    GivenBefore = 9,
    NoEndRecord = 10,
    AfterEndRecord = 11,
    BufferLength = 12,
    // records, sheets and tables
    DeviceRecord = 13,
    Sheet = 14,
    Table = 15,
    UnknownId = 16,
    PartTooLarge = 17,
    WrongName = 18,
    WrongSheetSum = 19,
    // what a stream is planned for
    Image = 20,
    Reading = 21,
    WrongBoard = 22,
    ProtectedBoard = 23,
    ConfigurationRises = 24,
    NoRoom = 26,
    // the steps of a target
    UnknownCode = 30,
    BadPayload = 31,
    Cells = 32,
    BulkEraseOutOfReach = 33,
    BrokenStream = 34,
    NoRoomForWord = 35,
}

impl Refusal {
    // Its number.
    pub fn number(self) -> u8
        ensures { result ≡ number_of self }
    {
        self as u8
    }
}

// 0 for an answer, or the number of its refusal.
pub fn number_in<T>(answer: &Result<T, Refusal>) -> u8
    ensures { result ≡ number_in answer.now }
{
    match answer {
        Ok(_) => 0,
        Err(refusal) => refusal.number(),
    }
}

#[cfg(test)]
mod tests {
    use super::*;
    use std::test::Fail;

    #[test]
    fn an_answer_has_number_0_and_a_refusal_its_own(rt: HostRuntime) -> Result<(), Fail> {
        let answer: Result<u16, Refusal> = Ok(5);
        assert_eq!(rt; number_in(&answer), 0);
        let refused: Result<u16, Refusal> = Err(Refusal::ProtectedBoard);
        assert_eq!(rt; number_in(&refused), 23);
        Ok(())
    }
}
