// What each order does to the cells, and the word that is read.
ghost use Rattle.std.specs.Prelude.{◌≡◌, ◌+◌, ◌*◌, ◌%◌, ◌≤◌, length, get_or};
ghost use Rattle.std.specs.Int.Bits.{bit_and};
ghost use Rattle.words.specs.Word.{erased};
ghost use Rattle.refusal.specs.Refusal.{number_in};
ghost use Rattle.words.specs.Lists.{overlay};
ghost use Rattle.target.specs.Chip.{chip_of};
ghost use Rattle.target.specs.Effects.{at_erase, locked, word_read};
ghost use Rattle.target.specs.Model.{done};
ghost use Rattle.target.specs.Step.{effect, place};
ghost use Rattle.target.specs.LawsOrders.{written};
ghost use Rattle.target.specs.declared.Order.TheVariants.{BulkErase, RowErase};
ghost use Rattle.target.specs.LawsHeld.{chip_at, target_of, Leaves};

use crate::board::Board;
use device::{CELLS_TAIL, Device, IDS, READING_TAIL};
use refusal::Refusal;
use words::{CONFIG_BASE, ERASED, WordAddress};

// Where the words end at which an erase acts.
const ERASE_END: u16 = CONFIG_BASE + (READING_TAIL as u16);

impl Board<'_> {
    // Whether program words can be neither read nor changed.
    #[tactic(auto, unfolding(crate::specs::Effects::locked, device::specs::Memory::protected))]
    fn is_protected(&self) -> bool
        ensures { result ≡ locked (chip_at self.now) self.now.cells.now }
    {
        device::is_protected(self.sound.device.words, self.cells)
    }

    // The word that Read answers: 0 for a program word while protected, and for a word that does not exist.
    pub(crate) fn word(&self) -> u16
        ensures { result ≡ word_read (chip_at self.now) (place (target_of self.now)) self.now.cells.now }
    {
        let at = self.registers.counter;
        if at.0 < self.sound.device.words {
            if self.is_protected() {
                return 0;
            }
            return self.cells[at.0 as usize];
        }
        self.cells
            .get(cell_of(self.sound.device, at))
            .copied()
            .unwrap_or(0)
    }

    // Whether the counter stands at a word of configuration space at which an erase acts.
    #[tactic(auto, using(words::specs::LawsChoice::tests), unfolding(crate::specs::Effects::at_erase, words::specs::Lists::in_range))]
    fn erases_ids(&self) -> bool
        ensures { result ≡ at_erase (chip_at self.now) (place (target_of self.now)) }
    {
        let at = self.registers.counter;
        CONFIG_BASE <= at.0 && at.0 < ERASE_END
    }

    // Row Erase.
    pub(crate) fn erase_row(&mut self)
        ensures { Leaves (effect (chip_at self.old) RowErase (target_of self.old)) self.old 0 self.new }
    {
        let program = self.sound.device.words as usize;
        let row = self.sound.device.row as usize;
        let a = self.registers.counter.0 as usize;
        if a < program {
            if self.is_protected() {
                return;
            }
            erase(self.cells, a / row * row, row);
            return;
        }
        if self.erases_ids() {
            erase(self.cells, program, IDS);
        }
    }

    // Bulk Erase; 33 past the words at which it acts.
    pub(crate) fn erase_all(&mut self) -> Result<(), Refusal>
        ensures { Leaves (effect (chip_at self.old) BulkErase (target_of self.old)) self.old (number_in result) self.new }
    {
        if ERASE_END <= self.registers.counter.0 {
            return Err(Refusal::BulkEraseOutOfReach);
        }
        let program = self.sound.device.words as usize;
        erase(self.cells, 0, program);
        erase(self.cells, program + 7, 2);
        if self.erases_ids() {
            erase(self.cells, program, IDS);
        }
        Ok(())
    }

    // What Begin does to the cells.
    pub(crate) fn write(&mut self)
        ensures { Leaves (done (written (chip_at self.old) (target_of self.old))) self.old 0 self.new }
    {
        let d = self.sound.device;
        let row = d.row as usize;
        let at = self.registers.counter;
        let a = at.0 as usize;
        if at.0 < d.words {
            if self.is_protected() {
                return;
            }
            write_row(&self.registers.latches, row, a / row, self.cells);
            return;
        }
        if at.0 < CONFIG_BASE {
            return;
        }
        let i = cell_of(d, at);
        if device::programmable(d.words, i) {
            self.cells[i] = burn(d, i, self.cells[i], self.registers.latches[a % row]);
        }
    }
}

// The cell that an address has; P+11 where it has none.
fn cell_of(d: Device, at: WordAddress) -> usize
    ensures { result ≡ (chip_of d).cell at.0 }
{
    words::address::entry_of(WordAddress(CONFIG_BASE), d.words, CELLS_TAIL as u8, at)
}

// What a write makes of a cell's word: itself AND the latch, in the bits that the cell has.
fn burn(d: Device, i: usize, word: u16, latch: u16) -> u16
    ensures { result ≡ (chip_of d).burn i word latch }
{
    device::under_mask(d, i, word & latch, word)
}

// Each word of a row becomes itself AND its latch.
fn write_row(latches: &[u16; 32], row: usize, number: usize, cells: &mut [u16])
    requires { (row ≤ 32) × (number * row + row ≤ length cells.old) }
    ensures { cells.new ≡ overlay (number * row) row (λ i. bit_and (get_or cells.old i 0) (get_or latches.now (i % row) 0)) cells.old }
{
    let first = number * row;
    for i in 0..row {
        cells[first + i] &= latches[i];
    }
}

// Erases `count` words from `first` on.
fn erase(cells: &mut [u16], first: usize, count: usize)
    requires { first + count ≤ length cells.old }
    ensures { cells.new ≡ overlay first count (λ i. erased) cells.old }
{
    cells[first..first + count].fill(ERASED);
}
