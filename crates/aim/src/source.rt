// What a board is to hold. Past a reading's end stands an erased word, since a fresh programming has no reading; past an image's end nothing is given.
ghost use Rattle.std.specs.Prelude.{◌≡◌, get_or};
ghost use Rattle.words.specs.Word.{not_given};
ghost use Rattle.aim.specs.Wanted.{known, wanted};

use device::Device;
use words::{ERASED, NOT_GIVEN};

// What a board is to be brought to: its record, the image that a file gives, and the words that it holds. Any three will do.
#[derive(Clone, Copy)]
pub struct Aim<'a> {
    pub device: Device,
    pub image: &'a [u16],
    pub reading: &'a [u16],
}

impl Aim<'_> {
    // The reading's word; past its end an erased one.
    #[tactic(auto, unfolding(crate::specs::Wanted::known))]
    pub(crate) fn known(&self, i: usize) -> u16
        ensures { result ≡ known self.now.reading.now i }
    {
        self.reading.get(i).copied().unwrap_or(ERASED)
    }

    // The image's entry; past its end nothing is given.
    fn given(&self, i: usize) -> u16
        ensures { result ≡ get_or self.now.image.now i not_given }
    {
        self.image.get(i).copied().unwrap_or(NOT_GIVEN)
    }

    // The word that an entry is to hold: what the image gives, in the bits that the word has, which are all before the configuration words; the known word
    // where it is silent.
    pub fn wanted(&self, i: usize) -> u16
        ensures { result ≡ wanted self.now.device self.now.image.now self.now.reading.now i }
    {
        let given = self.given(i);
        if given == NOT_GIVEN {
            return self.known(i);
        }
        if i < (self.device.words as usize) + 7 {
            return given;
        }
        device::under_mask(self.device, i, given, self.known(i))
    }
}
