// Where a board is to hold another word than it holds, and where one that rises over it, by program row and of the user IDs.
ghost use Rattle.std.specs.Prelude.{◌≡◌, true, ◌+◌};
ghost use Rattle.target.specs.Chip.{chip_of};
ghost use Rattle.aim.specs.Wanted.{known, wanted, differs, only_clears, rises, row_differs, row_rises, id_differs, id_rises, config_writes};
ghost use Rattle.aim.specs.LawsAim.{Plain};

use crate::source::Aim;
use words::NOT_GIVEN;

// Whether a word can be written over another: no bit goes from 0 to 1.
#[tactic(auto, unfolding(crate::specs::Wanted::only_clears))]
pub(crate) fn only_clears(wanted: u16, other: u16) -> bool
    ensures { result ≡ only_clears wanted other }
{
    other & wanted == wanted
}

impl Aim<'_> {
    // Whether a word is wanted other than it stands there.
    #[tactic(auto, unfolding(crate::specs::Wanted::differs))]
    fn differs(&self, i: usize) -> bool
        ensures { result ≡ differs (wanted self.now.device self.now.image.now self.now.reading.now) (known self.now.reading.now) i }
    {
        self.wanted(i) != self.known(i)
    }

    // Whether a word is wanted with a bit 1 where there stands a 0.
    #[tactic(auto, unfolding(crate::specs::Wanted::rises))]
    fn rises(&self, i: usize) -> bool
        ensures { result ≡ rises (wanted self.now.device self.now.image.now self.now.reading.now) (known self.now.reading.now) i }
    {
        !only_clears(self.wanted(i), self.known(i))
    }

    // Whether the words before a place have every bit, and stand within both lists.
    fn is_plain(&self, past: usize) -> bool
        ensures { result ≡ true → Plain self.now.device self.now.image.now self.now.reading.now past }
    {
        past <= (self.device.words as usize) + 7
            && past <= self.image.len()
            && past <= self.reading.len()
    }

    // Whether such a word rises; one that the image does not give stays as it is.
    fn plain_rises(&self, i: usize) -> bool
        requires { Plain self.now.device self.now.image.now self.now.reading.now (i + 1) }
        ensures { result ≡ rises (wanted self.now.device self.now.image.now self.now.reading.now) (known self.now.reading.now) i }
    {
        let given = self.image[i];
        given != NOT_GIVEN && !only_clears(given, self.reading[i])
    }

    // Whether a word of program row k differs.
    pub fn row_differs(&self, k: u16) -> bool
        ensures { result ≡ row_differs (chip_of self.now.device) (wanted self.now.device self.now.image.now self.now.reading.now) (known self.now.reading.now) k }
    {
        let row = self.device.row as usize;
        let first = (k as usize) * row;
        (0..row).any(|j| self.differs(first + j))
    }

    // Whether a word of program row k rises.
    pub fn row_rises(&self, k: u16) -> bool
        ensures { result ≡ row_rises (chip_of self.now.device) (wanted self.now.device self.now.image.now self.now.reading.now) (known self.now.reading.now) k }
    {
        let row = self.device.row as usize;
        let first = (k as usize) * row;
        if self.is_plain(first + row) {
            return (0..row).any(|j| self.plain_rises(first + j));
        }
        (0..row).any(|j| self.rises(first + j))
    }

    // Whether a user ID differs.
    pub fn id_differs(&self) -> bool
        ensures { result ≡ id_differs (chip_of self.now.device) (wanted self.now.device self.now.image.now self.now.reading.now) (known self.now.reading.now) }
    {
        let first = self.device.words as usize;
        (0..4).any(|j| self.differs(first + j))
    }

    // Whether a user ID rises.
    pub fn id_rises(&self) -> bool
        ensures { result ≡ id_rises (chip_of self.now.device) (wanted self.now.device self.now.image.now self.now.reading.now) (known self.now.reading.now) }
    {
        let first = self.device.words as usize;
        (0..4).any(|j| self.rises(first + j))
    }

    // Whether word k of configuration space is written; `all_ids` asks for every user ID.
    pub fn is_written(&self, k: usize, all_ids: bool) -> bool
        ensures { result ≡ config_writes (chip_of self.now.device) (wanted self.now.device self.now.image.now self.now.reading.now) (known self.now.reading.now) all_ids k }
    {
        match k {
            0..=3 => all_ids || self.differs((self.device.words as usize) + k),
            7 | 8 => self.differs((self.device.words as usize) + k),
            _ => false,
        }
    }
}
