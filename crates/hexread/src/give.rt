// The words of a data record, given to an image one after another.
ghost use Rattle.std.specs.Prelude.{◌≡◌, ℕ, ◌+◌, ◌*◌, ◌/◌, ◌<◌, Option, Some, length, get_or};
ghost use Rattle.words.specs.declared.WordAddress.{WordAddress};
ghost use Rattle.device.specs.Memory.{reading_tail};
ghost use Rattle.hexread.specs.Step.{entry_at};
ghost use Rattle.hexread.specs.LawsGive.{entry_by, entry_given, Gives, GivesRecord};

use crate::fault::RefusedWord;
use crate::line::Bytes;
use device::READING_TAIL;
use refusal::Refusal;
use words::{ByteAddress, CONFIG_BASE, NOT_GIVEN, WORD_LIMIT, WordAddress};

// Where the words of a data record go: for a device of so many program words, under the upper half that holds, from the record's offset on.
#[derive(Clone, Copy)]
pub(crate) struct Places {
    pub words: u16,
    pub upper: u32,
    pub offset: u32,
}

impl Places {
    // The entry of word j, if a word can be given to it.
    fn programmable_entry(self, j: u8) -> Option<usize>
        ensures { result ≡ entry_given self.words self.upper self.offset j }
    {
        let entry = self.entry(j);
        if device::programmable(self.words, entry) {
            Some(entry)
        } else {
            None
        }
    }

    // The entry of word j; one past the last entry where there is no word.
    fn entry(self, j: u8) -> usize
        ensures { result ≡ entry_by self.words self.upper self.offset j }
    {
        entry_at(self.words, words::address::halve(self.byte_address(j)))
    }

    // The address of the first byte of word j, where nothing wraps at 64 KiB.
    fn byte_address(self, j: u8) -> ByteAddress
        ensures { result ≡ record { 0 = self.upper * 65536 + self.offset + 2 * j } }
    {
        ByteAddress(u64::from(self.upper) * 65536 + u64::from(self.offset) + 2 * u64::from(j))
    }
}

// Gives the words of a data record, whatever line its bytes are those of.
// Where all of them lie in program space, the entries follow one another as the words do.
pub(crate) fn give_record(
    places: Places,
    count: u8,
    bytes: &Bytes,
    image: &mut [u16],
) -> Result<(), RefusedWord>
    requires { length image.old ≡ places.words + reading_tail }
    ensures { GivesRecord places.words places.upper count places.offset bytes.now image.old image.new result }
{
    let n = count / 2;
    let first = places.entry(0);
    if first + usize::from(n) <= usize::from(places.words) {
        return give(n, bytes, image, |j| Some(first + usize::from(j)));
    }
    give(n, bytes, image, |j| places.programmable_entry(j))
}

// Gives n words to the entries that a function tells, until one is refused, as one is that has no entry.
fn give<F: Fn(u8) -> Option<usize>>(
    n: u8,
    bytes: &Bytes,
    image: &mut [u16],
    entry: F,
) -> Result<(), RefusedWord>
    requires few { n < 128 }
    requires called { (j : ℕ) → j < n → F.pre entry j }
    requires inside { (j i : ℕ) → j < n → F.post entry j (Some i) → i < length image.old }
    ensures { Gives (F.post entry) n bytes.now image.old image.new result }
{
    for j in 0..n {
        let Some(i) = entry(j) else {
            return Err(RefusedWord {
                refusal: Refusal::NoSuchWord,
                word: j,
            });
        };
        let word = word_at(bytes, j);
        if WORD_LIMIT <= word {
            return Err(RefusedWord {
                refusal: Refusal::WordTooLarge,
                word: j,
            });
        }
        if image[i] != NOT_GIVEN {
            return Err(RefusedWord {
                refusal: Refusal::GivenBefore,
                word: j,
            });
        }
        image[i] = word;
    }
    Ok(())
}

// The entry of an address; one past the last entry where there is no word.
fn entry_at(words: u16, place: Option<WordAddress>) -> usize
    ensures { result ≡ entry_at words place }
{
    match place {
        Some(a) => words::address::entry_of(WordAddress(CONFIG_BASE), words, READING_TAIL as u8, a),
        None => usize::from(words) + READING_TAIL,
    }
}

// Word j of a record's bytes, low byte first.
fn word_at(bytes: &Bytes, j: u8) -> u16
    requires { j < 128 }
    ensures { result ≡ get_or bytes.now (4 + 2 * j) 0 + 256 * get_or bytes.now (5 + 2 * j) 0 }
{
    let at = 2 * usize::from(j);
    let low = bytes[4 + at];
    let high = bytes[5 + at];
    u16::from(low) + 256 * u16::from(high)
}
