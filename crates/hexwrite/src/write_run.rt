// The records that a run of given words becomes. Each text fits where it is put.
ghost use Rattle.std.specs.Prelude.{◌≡◌, ◌+◌, ◌*◌, ◌/◌, ◌≤◌, ◌++◌, length};
ghost use Rattle.hexwrite.specs.Writer.{record_text, digits_of, word_bytes, sum_of};
ghost use Rattle.hexwrite.specs.LawsWrite.{upper_text};
ghost use Rattle.hexwrite.specs.LawsWriteRun.{run_bytes};
ghost use Rattle.hexwrite.specs.LawsWriter.{Puts};

use crate::run::Run;
use crate::writer::Writer;

impl<'a> Writer<'a> {
    // Puts the records of a run: an upper half where it changes, and the words.
    pub(crate) fn put_run(&mut self, run: Run, upper: u16)
        requires { self.old.at + length (upper_text upper (run.address.0 / 65536)) + (12 + 4 * length run.words.now) ≤ length self.old.out.now }
        ensures { Puts (upper_text upper (run.entry.address.0 / 65536) ++ record_text (run_bytes run.entry.address.0 run.entry.words.now)) self.old self.new }
    {
        self.put_upper(upper, run.upper());
        self.put_data(run);
    }

    // Puts the upper half's record, if it is not the one that holds already.
    fn put_upper(&mut self, upper: u16, next: u16)
        requires { self.old.at + length (upper_text upper next) ≤ length self.old.out.now }
        ensures { Puts (upper_text upper next) self.old self.new }
    {
        if next == upper {
            return;
        }
        let high = (next / 256) as u8;
        let low = (next % 256) as u8;
        self.put_head(2, 0, 0, 4);
        self.put_byte(high);
        self.put_byte(low);
        self.put_sum(6 + (high as usize) + (low as usize));
    }

    // Puts the data record of a run.
    fn put_data(&mut self, run: Run)
        requires { self.old.at + (12 + 4 * length run.words.now) ≤ length self.old.out.now }
        ensures { Puts (record_text (run_bytes run.entry.address.0 run.entry.words.now)) self.old self.new }
    {
        let count = (2 * run.words.len()) as u8;
        let high = (run.address.0 % 65536 / 256) as u8;
        let low = (run.address.0 % 256) as u8;
        self.put_head(count, high, low, 0);
        let sum = self.put_words(run.words);
        self.put_sum((count as usize) + (high as usize) + (low as usize) + sum);
    }

    // Puts the words' digits, low byte first; answers the sum of their bytes.
    fn put_words(&mut self, words: &[u16]) -> usize
        requires { (length words.now ≤ 8) × (self.old.at + 4 * length words.now ≤ length self.old.out.now) }
        ensures puts { Puts (digits_of (word_bytes (length words.now) 0 words.now)) self.old self.new }
        ensures moved { self.new.at ≡ self.old.at + 4 * length words.now }
        ensures sum { (result ≡ sum_of (word_bytes (length words.now) 0 words.now)) × (result ≤ 4080) }
    {
        let mut sum: usize = 0;
        for word in words {
            let low = (*word % 256) as u8;
            let high = (*word / 256) as u8;
            self.put_byte(low);
            self.put_byte(high);
            sum += (low as usize) + (high as usize);
        }
        sum
    }
}
