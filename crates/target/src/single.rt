// One step: its refusals, and what it does.
ghost use Rattle.refusal.specs.Refusal.{number_in, value_in};
ghost use Rattle.target.specs.Step.{decoded, effect, step_effect, Steps};
ghost use Rattle.target.specs.declared.Order.TheVariants.{Read};
ghost use Rattle.target.specs.LawsHeld.{chip_at, target_of, Leaves};

use crate::board::Board;
use crate::decode::decode;
use crate::effects::next_address;
use crate::sound::judge;
use crate::{Order, Registers};
use device::Device;
use refusal::Refusal;
use words::{CONFIG_BASE, ERASED, WordAddress};

// One step on a target, which answers the registers afterwards. A refused step writes nothing.
pub fn step(
    d: Device,
    r: Registers,
    code: u8,
    payload: u16,
    words: &mut [u16],
    cells: &mut [u16],
) -> Result<Registers, Refusal>
    ensures { Steps d r code payload words.old cells.old (number_in result) (value_in r result) words.new cells.new }
{
    let sound = judge(d, cells)?;
    let mut board = Board {
        sound,
        registers: r,
        read: 0,
        words,
        cells,
    };
    if !board.has_words() {
        return Err(Refusal::Cells);
    }
    board.perform(code, payload)?;
    Ok(board.registers)
}

impl Board<'_> {
    // A step on a board that has been judged. A refused step leaves the board as it is.
    pub(crate) fn perform(&mut self, code: u8, payload: u16) -> Result<(), Refusal>
        ensures { Leaves (step_effect (chip_at self.old) (decoded code payload) (target_of self.old)) self.old (number_in result) self.new }
    {
        let order = decode(code, payload)?;
        self.obey(order)
    }

    fn obey(&mut self, order: Order) -> Result<(), Refusal>
        ensures { Leaves (effect (chip_at self.old) order (target_of self.old)) self.old (number_in result) self.new }
    {
        match order {
            Order::LoadConfiguration(w) => {
                self.registers.latches[0] = w;
                self.registers.counter = WordAddress(CONFIG_BASE);
                Ok(())
            }
            Order::LoadData(w) => {
                let latch = self.latch();
                self.registers.latches[latch] = w;
                Ok(())
            }
            Order::Read => self.fetch(),
            Order::Increment => {
                self.registers.counter = next_address(self.registers.counter);
                Ok(())
            }
            Order::ResetAddress => {
                self.registers.counter = WordAddress(0);
                Ok(())
            }
            Order::Begin => {
                self.write();
                self.registers.latches = [ERASED; 32];
                Ok(())
            }
            Order::BulkErase => self.erase_all(),
            Order::RowErase => {
                self.erase_row();
                Ok(())
            }
        }
    }

    // The word read goes to the next place of the buffer, where there is one.
    fn fetch(&mut self) -> Result<(), Refusal>
        ensures { Leaves (effect (chip_at self.old) Read (target_of self.old)) self.old (number_in result) self.new }
    {
        if self.read == self.words.len() {
            return Err(Refusal::NoRoomForWord);
        }
        self.words[self.read] = self.word();
        self.read += 1;
        Ok(())
    }
}
