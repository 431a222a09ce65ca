// One line of HEX text: its bytes, and whether it is a sound record.
ghost use Rattle.std.specs.Prelude.{◌≡◌, ◌+◌, ◌*◌, ◌≤◌, length, get_or};
ghost use Rattle.words.specs.Choice.{below};
ghost use Rattle.hexread.specs.Line.{byte_at};
ghost use Rattle.hexread.specs.LawsDecode.{Decoded, Kind, Judged};

use crate::digits::Digits;
use refusal::Refusal;

// The bytes of the longest record: LL, two of address, type, LL of data, sum.
pub(crate) type Bytes = [u8; 260];

// What a sound record tells.
#[derive(Clone, Copy)]
pub(crate) enum Record {
    // its bytes of data, and the address of the first within its 64 KiB
    Data { count: u8, offset: u32 },
    End,
    // the upper half of the addresses that follow
    Upper(u32),
}

impl Digits {
    // A sound record, whose bytes are then decoded, or the first of 2 to 6 that holds.
    pub(crate) fn judge_line(&self, line: &[u8], bytes: &mut Bytes) -> Result<Record, Refusal>
        ensures { Judged line.now result bytes.new }
    {
        if line.is_empty() || line[0] != b':' {
            return Err(Refusal::NotARecord);
        }
        let Some(count) = self.count_of(line) else {
            return Err(Refusal::NotARecord);
        };
        let n = usize::from(count) + 5;
        if line.len() != 1 + 2 * n {
            return Err(Refusal::NotARecord);
        }
        let Some(sum) = self.decode(line, n, bytes) else {
            return Err(Refusal::NotARecord);
        };
        if sum != 0 {
            return Err(Refusal::WrongSum);
        }
        record_of(bytes, count)
    }

    // The first byte after the colon.
    fn count_of(&self, line: &[u8]) -> Option<u8>
        ensures { result ≡ below 256 (byte_at line.now 0) }
    {
        if line.len() < 3 {
            return None;
        }
        self.byte(line[1], line[2])
    }

    // Decodes the n bytes after the colon. Answers their sum mod 256, if each of them is two digits.
    fn decode(&self, line: &[u8], n: usize, bytes: &mut Bytes) -> Option<u8>
        requires { (n ≤ 260) × (length line.now ≡ 1 + 2 * n) }
        ensures { Decoded line.now n result bytes.new }
    {
        let mut sum: u32 = 0;
        for j in 0..n {
            let b = self.byte(line[1 + 2 * j], line[2 + 2 * j])?;
            bytes[j] = b;
            sum += u32::from(b);
        }
        Some((sum % 256) as u8)
    }
}

// What a record's bytes tell, or the first of 4, 5, 6 that type, address and count give.
fn record_of(bytes: &Bytes, count: u8) -> Result<Record, Refusal>
    ensures { Kind bytes.now count result }
{
    let offset = offset_of(bytes);
    match bytes[3] {
        0 => {
            if offset % 2 != 0 || count % 2 != 0 {
                return Err(Refusal::OddData);
            }
            Ok(Record::Data { count, offset })
        }
        1 => {
            if offset != 0 || count != 0 {
                return Err(Refusal::WrongLengthOrAddress);
            }
            Ok(Record::End)
        }
        4 => {
            if offset != 0 || count != 2 {
                return Err(Refusal::WrongLengthOrAddress);
            }
            Ok(Record::Upper(256 * u32::from(bytes[4]) + u32::from(bytes[5])))
        }
        _ => Err(Refusal::UnknownType),
    }
}

// The address of a record's first byte within its 64 KiB.
fn offset_of(bytes: &Bytes) -> u32
    ensures { result ≡ 256 * get_or bytes.now 1 0 + get_or bytes.now 2 0 }
{
    256 * u32::from(bytes[1]) + u32::from(bytes[2])
}
