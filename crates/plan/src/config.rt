// Words of configuration space put into a stream: user IDs, all or those that differ, and the configuration words that differ.
ghost use Rattle.std.specs.Prelude.{◌<◌};
ghost use Rattle.plan.specs.Steps.{word_steps};
ghost use Rattle.plan.specs.LawsPlanSteps.{plan_writes, plan_config};
ghost use Rattle.plan.specs.LawsPlanWrote.{Wrote, Room};

use crate::orders::Writer;
use crate::task::Task;
use target::Order;
use words::ERASED;

impl Writer<'_> {
    // One word: up to it, load, write.
    fn word(&mut self, word: u16, at: usize, k: usize)
        requires word_bound { word < 0x4000 }
        requires room { Room (word_steps word at k) self.old }
        ensures { Wrote (word_steps word at k) self.old self.new }
    {
        self.walk(at, k);
        self.put(Order::LoadData(word));
        self.put(Order::Begin);
    }
}

impl Task<'_> {
    // The words that are written, ascending; the counter is carried along.
    fn put_writes(&self, w: &mut Writer)
        requires { Room (plan_writes self.now.aim.device self.now.aim.image.now self.now.aim.reading.now self.now.all_ids 9 0 0) w.old }
        ensures { Wrote (plan_writes self.now.aim.device self.now.aim.image.now self.now.aim.reading.now self.now.all_ids 9 0 0) w.old w.new }
    {
        let mut at = 0;
        for k in 0..9 {
            if self.aim.is_written(k, self.all_ids) {
                let word = self.aim.wanted((self.aim.device.words as usize) + k);
                w.word(word, at, k);
                at = k;
            }
        }
    }

    // If any word is written: Load Configuration, Row Erase of the user IDs if asked for, and each word.
    pub(crate) fn put_config(&self, w: &mut Writer)
        requires { Room (plan_config self.now.aim.device self.now.aim.image.now self.now.aim.reading.now self.now.erase_ids self.now.all_ids) w.old }
        ensures { Wrote (plan_config self.now.aim.device self.now.aim.image.now self.now.aim.reading.now self.now.erase_ids self.now.all_ids) w.old w.new }
    {
        if self.some_written() {
            w.put(Order::LoadConfiguration(ERASED));
            w.erase(self.erase_ids);
            self.put_writes(w);
        }
    }
}
