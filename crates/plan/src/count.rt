// How many steps a stream has, by arithmetic: so a buffer that is too short is known before the first byte, and no store tests for room.
ghost use Rattle.std.specs.Prelude.{◌/◌};
ghost use Rattle.plan.specs.Steps.{erasing};
ghost use Rattle.plan.specs.LawsPlanSteps.{plan_rows, plan_writes, plan_config, plan_body};
ghost use Rattle.plan.specs.LawsPlanCount.{Counts, rows_most, writes_most, config_most, body_most};

use crate::task::Task;

// Row Erase where it is asked for.
fn erase_length(erase: bool) -> usize
    ensures { Counts 1 (erasing erase) result }
{
    usize::from(erase)
}

impl Task<'_> {
    // Rows, and then configuration space.
    pub(crate) fn length(&self) -> usize
        ensures { Counts body_most (plan_body self.now.aim.device self.now.aim.image.now self.now.aim.reading.now self.now.erases self.now.erase_ids self.now.all_ids) result }
    {
        self.rows_length() + self.config_length()
    }

    // The rows in which some word differs: the way to each, its erase, its loads with the Increments between them, and Begin.
    fn rows_length(&self) -> usize
        ensures { Counts rows_most (plan_rows self.now.aim.device self.now.aim.image.now self.now.aim.reading.now self.now.erases (self.now.aim.device.words / self.now.aim.device.row) 0 0) result }
    {
        let d = self.aim.device;
        let row = d.row as usize;
        let mut steps = 0;
        let mut at = 0;
        for k in 0..d.words / d.row {
            if self.aim.row_differs(k) {
                let first = (k as usize) * row;
                let erased = erase_length(self.is_erased(k));
                steps += (first - at) + (erased + 2 * row);
                at = first + (row - 1);
            }
        }
        steps
    }

    // Configuration space: nothing, or Load Configuration, the erase and the words.
    fn config_length(&self) -> usize
        ensures { Counts config_most (plan_config self.now.aim.device self.now.aim.image.now self.now.aim.reading.now self.now.erase_ids self.now.all_ids) result }
    {
        if !self.some_written() {
            return 0;
        }
        1 + erase_length(self.erase_ids) + self.writes_length()
    }

    // The words that are written: the way to each, its load, and Begin.
    fn writes_length(&self) -> usize
        ensures { Counts writes_most (plan_writes self.now.aim.device self.now.aim.image.now self.now.aim.reading.now self.now.all_ids 9 0 0) result }
    {
        let mut steps = 0;
        let mut at = 0;
        for k in 0..9 {
            if self.aim.is_written(k, self.all_ids) {
                steps += (k - at) + 2;
                at = k;
            }
        }
        steps
    }
}
