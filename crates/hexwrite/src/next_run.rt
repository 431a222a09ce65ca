// Where the next run of an image stands.
ghost use Rattle.std.specs.Prelude.{◌≡◌, ◌==◌, ◌+◌, ◌≤◌, ◌<◌, not, length, get_or, position};
ghost use Rattle.words.specs.Word.{not_given};
ghost use Rattle.device.specs.Record.{most_words};
ghost use Rattle.device.specs.Memory.{reading_tail};
ghost use Rattle.hexwrite.specs.LawsWrite.{Addressed};
ghost use Rattle.hexwrite.specs.LawsWriteStop.{BlockStop, RunTo};
ghost use Rattle.hexwrite.specs.LawsNextRun.{NextRun};

use crate::image::Image;
use crate::run::Run;
use device::READING_TAIL;
use words::{ByteAddress, CONFIG_BASE, NOT_GIVEN, WordAddress};

// An aligned block of sixteen bytes, in words.
const BLOCK: usize = 8;

impl<'a> Image<'a> {
    // The first run that begins at an entry or after it.
    pub(crate) fn next_run(&self, from: usize) -> Option<Run<'a>>
        requires { from ≤ length self.now.entries.now }
        ensures { NextRun self.now.words self.now.entries.now from result }
    {
        let entries = self.entries;
        let start = from + first_given(&entries[from..])?;
        let stop = run_stop(entries, start);
        Some(Run {
            words: &entries[start..stop],
            stop,
            address: hex_address(self.words, start),
        })
    }
}

// The end of the run that begins at an entry: the next entry that is not given, or the end of the block or of the image.
fn run_stop(image: &[u16], start: usize) -> usize
    requires { (start < length image.now) × (length image.now ≤ most_words + reading_tail) × (get_or image.now start 0 ≡ not_given → ⊥) }
    ensures { RunTo image.now start result }
{
    let end = block_stop(start, image.len());
    for i in start + 1..end {
        if image[i] == NOT_GIVEN {
            return i;
        }
    }
    end
}

// Where the first given word stands.
fn first_given(words: &[u16]) -> Option<usize>
    ensures { result ≡ position (λ w. not (w == not_given)) words.now }
{
    words.iter().position(|word| *word != NOT_GIVEN)
}

// The end of the block that an entry stands in, or of all entries.
fn block_stop(start: usize, count: usize) -> usize
    requires { (start < count) × (count ≤ most_words + reading_tail) }
    ensures { BlockStop start count result }
{
    count.min(start / BLOCK * BLOCK + BLOCK)
}

// The byte address at which an entry's word begins.
fn hex_address(words: u16, entry: usize) -> ByteAddress
    requires { (words ≤ most_words) × (entry < words + reading_tail) }
    ensures { Addressed words entry result }
{
    match words::address::address_of(WordAddress(CONFIG_BASE), words, READING_TAIL as u8, entry) {
        Some(a) => words::address::double(a),
        None => ByteAddress(0),
    }
}
