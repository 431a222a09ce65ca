// An image that can be written.
ghost use Rattle.std.specs.Prelude.{◌≡◌, ◌+◌, ◌≤◌, length};
ghost use Rattle.device.specs.Record.{most_words};
ghost use Rattle.device.specs.Memory.{reading_tail};

use device::{Device, Sound};
use refusal::Refusal;

// An image of a record that keeps the rules: P program words, and what comes after them.
#[derive(Clone, Copy)]
pub(crate) struct Image<'a> {
    pub words: u16,
    pub entries: &'a [u16],
    ghost few: { words ≤ most_words },
    ghost long: { length entries.now ≡ words + reading_tail },
}

impl<'a> Image<'a> {
    ghost use Rattle.hexwrite.specs.LawsAnswer.{ImageOf};

    // The image, if record and entries are sound.
    pub(crate) fn of(d: Device, entries: &'a [u16]) -> Result<Image<'a>, Refusal>
        ensures { ImageOf d entries.now result }
    {
        let sound = Sound::of(d)?;
        if !device::is_image(d.words, entries) {
            return Err(Refusal::Image);
        }
        Ok(Image {
            words: sound.device.words,
            entries,
        })
    }
}
