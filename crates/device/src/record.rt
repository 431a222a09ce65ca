// The rules of a device record, and the ID words that fit it.
ghost use Rattle.std.specs.Prelude.{◌≡◌, ◌<◌};
ghost use Rattle.refusal.specs.Refusal.{number_in};
ghost use Rattle.device.specs.Record.{most_words, row_ok, words_up_to, fits, device_ok, record_number};

use crate::{Device, MOST_WORDS};
use refusal::Refusal;
use words::WORD_LIMIT;

// Refuses a record that breaks the rules.
#[tactic(auto, unfolding(crate::specs::Record::record_number, words::specs::Choice::pick))]
pub fn judge(d: Device) -> Result<(), Refusal>
    ensures { number_in result ≡ record_number d }
{
    if keeps_rules(d) {
        Ok(())
    } else {
        Err(Refusal::DeviceRecord)
    }
}

// Whether a record keeps the rules.
#[tactic(auto, using(words::specs::LawsChoice::tests), unfolding(crate::specs::Record::device_ok, crate::specs::Record::device_up_to, words::specs::Word::is_word, words::specs::Word::bit))]
fn keeps_rules(d: Device) -> bool
    ensures { result ≡ device_ok d }
{
    row_ok(d.row)
        && words_ok(d.words, d.row)
        && d.id < WORD_LIMIT
        && d.mask1 < WORD_LIMIT
        && d.mask2 < WORD_LIMIT
        && d.idmask < WORD_LIMIT
        && d.mask1 / 128 % 2 == 1
}

#[tactic(auto, using(words::specs::LawsChoice::tests), unfolding(crate::specs::Record::row_ok))]
fn row_ok(row: u16) -> bool
    ensures { result ≡ row_ok row }
{
    row == 8 || row == 16 || row == 32
}

#[tactic(auto, using(words::specs::LawsChoice::tests), unfolding(crate::specs::Record::words_up_to))]
fn words_ok(words: u16, row: u16) -> bool
    requires { 0 < row }
    ensures { result ≡ words_up_to most_words words row }
{
    words % row == 0 && row <= words && words <= MOST_WORDS
}

// Whether a word fits the device: it equals the ID in every bit of the mask.
#[tactic(auto, using(words::specs::LawsChoice::tests), unfolding(crate::specs::Record::fits, words::specs::Word::is_word))]
pub fn fits(d: Device, w: u16) -> bool
    ensures { result ≡ fits d w }
{
    let mask = d.idmask;
    w < WORD_LIMIT && w & mask == d.id & mask
}
