// A reading held against a wanted reading.
ghost use Rattle.std.specs.Prelude.{◌≡◌, ◌&&◌, ◌+◌, ◌≤◌, ◌<◌, length};
ghost use Rattle.words.specs.Address.{config_base, address_of};
ghost use Rattle.device.specs.Memory.{reading_tail, mask_at, protected};
ghost use Rattle.judge.specs.Verify.{judged, word_differs, entry_differs, verdict_of, verified, as_told, verdict_told};
ghost use Rattle.judge.specs.LawsCount.{Seen};

use crate::Verdict;
use device::{Device, READING_TAIL, Sound};
use refusal::Refusal;
use std::ops::Range;
use words::{CONFIG_BASE, WordAddress};

// How many words are compared at once: a verify mostly sees words that are the same.
const STRETCH: usize = 8;

// The first entry that differs, and how many do.
#[derive(Clone, Copy)]
struct Differences {
    first: usize,
    count: usize,
}

// How a reading of the device differs from the wanted one where it is judged; or refused as a record or as a reading.
#[tactic(auto, using(device::specs::LawsMemory::reading_long, crate::specs::LawsVerify::told_refused, crate::specs::LawsVerify::told_21_wanted, crate::specs::LawsVerify::told_21_reading, crate::specs::LawsVerify::told_verdict))]
pub fn verify(d: Device, wanted: &[u16], reading: &[u16]) -> Result<Verdict, Refusal>
    ensures { verdict_told result ≡ verified d wanted.now reading.now }
{
    let sound = Sound::of(d)?;
    if !device::is_reading(d.words, wanted) || !device::is_reading(d.words, reading) {
        return Err(Refusal::Reading);
    }
    Ok(verdict(sound, wanted, reading))
}

// What two sound readings come to.
fn verdict(s: Sound, wanted: &[u16], reading: &[u16]) -> Verdict
    requires { (length wanted.now ≡ s.device.words + reading_tail) × (length reading.now ≡ s.device.words + reading_tail) }
    ensures { as_told result ≡ verdict_of s.device wanted.now reading.now }
{
    let d = s.device;
    let hidden = device::is_protected(d.words, reading);
    match compare(d, hidden, wanted, reading) {
        Some(found) => Verdict::Differs {
            address: address(s, found.first),
            count: found.count,
        },
        None if hidden => Verdict::Protected,
        None => Verdict::Same,
    }
}

// Goes over the entries a stretch at a time, and one by one only where a stretch differs.
fn compare(d: Device, hidden: bool, wanted: &[u16], reading: &[u16]) -> Option<Differences>
    requires { (length wanted.now ≡ d.words + reading_tail) × (length reading.now ≡ d.words + reading_tail) × (hidden ≡ protected d.words reading.now) }
    ensures { Seen (d.words + reading_tail) (entry_differs d wanted.now reading.now) result }
{
    let (wanted_stretches, _) = wanted.as_chunks::<STRETCH>();
    let (reading_stretches, _) = reading.as_chunks::<STRETCH>();
    let mut found = None;
    for (k, stretch) in wanted_stretches.iter().enumerate() {
        if *stretch != reading_stretches[k] {
            found = look(
                d,
                hidden,
                found,
                k * STRETCH..k * STRETCH + STRETCH,
                wanted,
                reading,
            );
        }
    }
    look(
        d,
        hidden,
        found,
        wanted_stretches.len() * STRETCH..wanted.len(),
        wanted,
        reading,
    )
}

// Goes over a range of entries, and takes them into what was found before it.
fn look(
    d: Device,
    hidden: bool,
    before: Option<Differences>,
    range: Range<usize>,
    wanted: &[u16],
    reading: &[u16],
) -> Option<Differences>
    requires { (range.start ≤ range.end) × (range.end ≤ length wanted.now) × (length wanted.now ≡ length reading.now) × (hidden ≡ protected d.words reading.now) × Seen range.start (entry_differs d wanted.now reading.now) before }
    ensures { Seen range.end (entry_differs d wanted.now reading.now) result }
{
    let mut found = before;
    for i in range {
        if differ(d, hidden, i, wanted[i], reading[i]) {
            let seen = found.unwrap_or(Differences { first: i, count: 0 });
            found = Some(Differences {
                count: seen.count + 1,
                ..seen
            });
        }
    }
    found
}

// Whether an entry is judged and its two words differ.
#[tactic(auto, using(words::specs::LawsChoice::tests))]
fn differ(d: Device, hidden: bool, i: usize, wanted: u16, reading: u16) -> bool
    ensures { result ≡ (judged d.words hidden i && word_differs (mask_at d i) wanted reading) }
{
    word_differs(d, i, wanted, reading) && is_judged(d.words, hidden, i)
}

// Whether two words differ in a bit that their entry has: program words and user IDs have every bit.
#[tactic(auto, using(crate::specs::LawsVerify::words_same, crate::specs::LawsVerify::words_other, crate::specs::LawsVerify::words_under))]
fn word_differs(d: Device, i: usize, wanted: u16, reading: u16) -> bool
    ensures { result ≡ word_differs (mask_at d i) wanted reading }
{
    wanted != reading
        && (i < usize::from(d.words) + 7 || device::under_mask(d, i, wanted, reading) != reading)
}

// Program words are judged unless they are hidden, user IDs and configuration words always.
#[tactic(auto, using(words::specs::LawsChoice::tests), unfolding(crate::specs::Verify::judged))]
fn is_judged(words: u16, hidden: bool, i: usize) -> bool
    ensures { result ≡ judged words hidden i }
{
    device::programmable(words, i) && !(hidden && i < usize::from(words))
}

// The address of an entry of a reading.
#[tactic(auto, using(crate::specs::LawsVerify::word_of_entry))]
fn address(s: Sound, entry: usize) -> WordAddress
    requires { entry < s.device.words + reading_tail }
    ensures { result ≡ (record { 0 = address_of config_base s.device.words entry }) }
{
    words::address::address_of(
        WordAddress(CONFIG_BASE),
        s.device.words,
        READING_TAIL as u8,
        entry,
    )
    .unwrap()
}
