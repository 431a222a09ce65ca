// The checksum of a reading.
ghost use Rattle.std.specs.Prelude.{◌≡◌, ◌+◌, ◌*◌, ◌%◌, ◌≤◌, ◌<◌, length};
ghost use Rattle.std.specs.Int.Bits.{bit_and};
ghost use Rattle.device.specs.Record.{most_words};
ghost use Rattle.device.specs.Memory.{reading_tail};
ghost use Rattle.judge.specs.Checksum.{sum_to, config_sum, nibbles, checksum_of, summed, sum_told};

use device::{Device, Sound};
use refusal::Refusal;

// The checksum of a reading of the device; or refused as a record or as a reading.
#[tactic(auto, using(device::specs::LawsMemory::reading_long, crate::specs::LawsChecksum::told_refused, crate::specs::LawsChecksum::told_21, crate::specs::LawsChecksum::told_0))]
pub fn checksum(d: Device, reading: &[u16]) -> Result<u16, Refusal>
    ensures { sum_told result ≡ summed d reading.now }
{
    let sound = Sound::of(d)?;
    if !device::is_reading(d.words, reading) {
        return Err(Refusal::Reading);
    }
    Ok(sum_of(sound, reading))
}

// The checksum by CP: what a protected board hides has no part in it.
fn sum_of(s: Sound, reading: &[u16]) -> u16
    requires { length reading.now ≡ s.device.words + reading_tail }
    ensures { result ≡ checksum_of s.device reading.now }
{
    let d = s.device;
    let config = add_config(d, reading);
    let others = if device::is_protected(d.words, reading) {
        join_nibbles(d.words, reading)
    } else {
        add_words(d.words, reading)
    };
    ((config + others) % 65536) as u16
}

// The program words added up: they are few enough for 32 bits.
fn add_words(words: u16, reading: &[u16]) -> u32
    requires { (words ≤ most_words) × (words ≤ length reading.now) }
    ensures { (result ≡ sum_to words reading.now) × (result ≤ 65535 * words) }
{
    let mut sum = 0;
    for word in &reading[..words as usize] {
        sum += *word as u32;
    }
    sum
}

// Both configuration words under their masks, added up.
fn add_config(d: Device, reading: &[u16]) -> u32
    requires { d.words + 8 < length reading.now }
    ensures { (result ≡ config_sum d reading.now) × (result < 131072) }
{
    let first = (d.words as usize) + 7;
    let second = (d.words as usize) + 8;
    masked(reading[first], d.mask1) + masked(reading[second], d.mask2)
}

// A configuration word without the bits that its mask leaves out.
fn masked(word: u16, mask: u16) -> u32
    ensures { (result ≡ bit_and word mask) × (result < 65536) }
{
    (word & mask) as u32
}

// The low nibbles of the four user IDs as one number, the first ID highest.
fn join_nibbles(words: u16, reading: &[u16]) -> u32
    requires { words + 3 < length reading.now }
    ensures { (result ≡ nibbles words reading.now) × (result < 65536) }
{
    let at = words as usize;
    let first = nibble(reading[at]);
    let second = nibble(reading[at + 1]);
    let third = nibble(reading[at + 2]);
    let fourth = nibble(reading[at + 3]);
    first * 4096 + second * 256 + third * 16 + fourth
}

// The low nibble of a user ID.
fn nibble(id: u16) -> u32
    ensures { (result ≡ id % 16) × (result < 16) }
{
    (id % 16) as u32
}
