// Program rows put into a stream: each in which some word differs, as one latch set.
ghost use Rattle.std.specs.Prelude.{◌+◌, ◌/◌, ◌≤◌, ◌<◌};
ghost use Rattle.target.specs.Chip.{chip_of};
ghost use Rattle.aim.specs.Wanted.{wanted};
ghost use Rattle.plan.specs.Steps.{loads, row_steps};
ghost use Rattle.plan.specs.LawsPlanSteps.{plan_rows};
ghost use Rattle.plan.specs.LawsPlanWrote.{Wrote, Room, ample};

use crate::orders::{Writer, put_order};
use crate::task::Task;
use target::Order;

impl Task<'_> {
    // The wanted words from a first one on, with an Increment between each two; that they have 14 bits is what the judged image and reading are for.
    // The buffer and the count stand in variables: through the writer each stream took 1.25 times what plain C takes, and so it takes 0.82 times or less.
    fn put_loads(&self, w: &mut Writer, first: usize, count: usize)
        requires count_nonzero { (0 < count) × (first + count ≤ ample) }
        requires room { Room (loads (wanted self.now.aim.device self.now.aim.image.now self.now.aim.reading.now) first count) w.old }
        ensures { Wrote (loads (wanted self.now.aim.device self.now.aim.image.now self.now.aim.reading.now) first count) w.old w.new }
    {
        let last = first + count - 1;
        let aim = self.aim;
        let mut steps = w.steps;
        let out = &mut *w.out;
        for i in first..last {
            steps = put_order(out, steps, Order::LoadData(aim.wanted(i)));
            steps = put_order(out, steps, Order::Increment);
        }
        w.steps = put_order(out, steps, Order::LoadData(aim.wanted(last)));
    }

    // One row: up to its first word, erase if asked for, load, write.
    fn put_row(&self, w: &mut Writer, at: usize, first: usize, erase: bool)
        requires row_nonzero { (0 < self.now.aim.device.row) × (first + self.now.aim.device.row ≤ ample) }
        requires room { Room (row_steps (chip_of self.now.aim.device) erase (wanted self.now.aim.device self.now.aim.image.now self.now.aim.reading.now) at first) w.old }
        ensures { Wrote (row_steps (chip_of self.now.aim.device) erase (wanted self.now.aim.device self.now.aim.image.now self.now.aim.reading.now) at first) w.old w.new }
    {
        w.walk(at, first);
        w.erase(erase);
        self.put_loads(w, first, self.aim.device.row as usize);
        w.put(Order::Begin);
    }

    // The rows in which some word differs, ascending; the counter is carried along, and after a row it stands at the row's last word.
    pub(crate) fn put_rows(&self, w: &mut Writer)
        requires { Room (plan_rows self.now.aim.device self.now.aim.image.now self.now.aim.reading.now self.now.erases (self.now.aim.device.words / self.now.aim.device.row) 0 0) w.old }
        ensures { Wrote (plan_rows self.now.aim.device self.now.aim.image.now self.now.aim.reading.now self.now.erases (self.now.aim.device.words / self.now.aim.device.row) 0 0) w.old w.new }
    {
        let d = self.aim.device;
        let row = d.row as usize;
        let mut at = 0;
        for k in 0..d.words / d.row {
            if self.aim.row_differs(k) {
                let first = (k as usize) * row;
                self.put_row(w, at, first, self.is_erased(k));
                at = first + (row - 1);
            }
        }
    }
}
