// What a stream is to bring about, and whether so: what is wanted of which board, and what is erased or written though it need not be.
ghost use Rattle.std.specs.Prelude.{◌≡◌, ◌&&◌};
ghost use Rattle.device.specs.LawsRecord.{Rules};
ghost use Rattle.target.specs.Chip.{chip_of};
ghost use Rattle.aim.specs.Wanted.{known, wanted, some, row_rises};
ghost use Rattle.plan.specs.LawsPlanSteps.{plan_written};
ghost use Rattle.plan.specs.LawsPlanSource.{Source};

use aim::Aim;

// The steps of a stream after its first ones, of a record that is judged and words that fit. The fields that are flags: whether a row of which a word
// rises is erased before it is written, whether the user IDs are erased, and whether all of them are written.
#[derive(Clone, Copy)]
pub(crate) struct Task<'a> {
    pub(crate) aim: Aim<'a>,
    pub(crate) erases: bool,
    pub(crate) erase_ids: bool,
    pub(crate) all_ids: bool,
    ghost rules: { Rules aim.device },
    ghost source: { Source aim.device aim.image.now aim.reading.now },
}

impl Task<'_> {
    // Whether row k is erased before it is written: only where erases by row are asked for, and there if a word of it rises.
    pub(crate) fn is_erased(&self, k: u16) -> bool
        ensures { result ≡ (self.now.erases && row_rises (chip_of self.now.aim.device) (wanted self.now.aim.device self.now.aim.image.now self.now.aim.reading.now) (known self.now.aim.reading.now) k) }
    {
        self.erases && self.aim.row_rises(k)
    }

    // Whether any word of configuration space is written.
    pub(crate) fn some_written(&self) -> bool
        ensures { result ≡ some 9 (plan_written self.now.aim.device self.now.aim.image.now self.now.aim.reading.now self.now.all_ids) }
    {
        (0..9).any(|k| self.aim.is_written(k, self.all_ids))
    }
}
