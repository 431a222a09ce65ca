// What one line does to a reading.
ghost use Rattle.std.specs.Prelude.{◌≡◌, false, List, ℕ, ◌+◌, length};
ghost use Rattle.device.specs.Memory.{reading_tail};
ghost use Rattle.hexread.specs.LawsDecode.{Tells};
ghost use Rattle.hexread.specs.LawsGive.{reading};
ghost use Rattle.hexread.specs.LawsFault.{number_in_line};
ghost use Rattle.hexread.specs.LawsTaken.{RecordTaken, LineTaken};

use crate::digits::Digits;
use crate::fault::Fault;
use crate::give::{Places, give_record};
use crate::line::{Bytes, Record};
use refusal::Refusal;

// A reading: one table for all lines, and where it stands. The bytes of a record are lent to it, since an array that were a part of it would be copied there.
#[derive(Drop)]
pub(crate) struct Reader {
    digits: Digits,
    words: u16,
    ended: bool,
    upper: u32,
}

impl Reader {
    pub(crate) fn new(words: u16) -> Reader
        ensures { (result.words ≡ words) × (result.ended ≡ false) × (result.upper ≡ 0) }
    {
        Reader {
            digits: Digits::new(),
            words,
            ended: false,
            upper: 0,
        }
    }

    // Whether the end record was seen.
    pub(crate) fn ended(&self) -> bool
        ensures { result ≡ self.now.ended }
    {
        self.ended
    }

    // One line: an empty one is skipped, after the end record any other is refused.
    pub(crate) fn take_line(
        &mut self,
        line: &[u8],
        bytes: &mut Bytes,
        image: &mut [u16],
    ) -> Result<(), Fault>
        requires { length image.old ≡ self.old.words + reading_tail }
        ensures words { self.new.words ≡ self.old.words }
        ensures taken { LineTaken self.old.words line.now (reading self.old.ended self.old.upper image.old 0) (reading self.new.ended self.new.upper image.new (number_in_line result)) result }
    {
        if line.is_empty() {
            return Ok(());
        }
        if self.ended {
            return Err(Fault::Line(Refusal::AfterEndRecord));
        }
        let record = self.digits.judge_line(line, bytes)?;
        self.take_record(record, bytes, image)
    }

    // A sound record, whatever line it was decoded from: data gives its words, the end is noted, an upper half is kept for what follows.
    fn take_record(&mut self, sound: Record, bytes: &Bytes, image: &mut [u16]) -> Result<(), Fault>
        requires { (self.old.ended ≡ false) × (length image.old ≡ self.old.words + reading_tail) }
        ensures words { self.new.words ≡ self.old.words }
        ensures taken { (line : List ℕ) → Tells line bytes.now sound
            → RecordTaken self.old.words line self.old.upper image.old (reading self.new.ended self.new.upper image.new (number_in_line result)) result }
    {
        match sound {
            Record::Data { count, offset } => {
                let places = Places {
                    words: self.words,
                    upper: self.upper,
                    offset,
                };
                give_record(places, count, bytes, image)?;
            }
            Record::End => self.ended = true,
            Record::Upper(half) => self.upper = half,
        }
        Ok(())
    }
}
