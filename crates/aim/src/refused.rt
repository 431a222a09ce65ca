// What a planner refuses before it looks at its buffer: 13, 20, 21, 22, 23 and 24, in this order.
ghost use Rattle.std.specs.Prelude.{◌≡◌, ◌+◌, length};
ghost use Rattle.refusal.specs.Refusal.{number_in};
ghost use Rattle.device.specs.Memory.{reading_tail};
ghost use Rattle.aim.specs.Refusal.{config_ok, update_number, fresh_number};

use crate::changes::only_clears;
use crate::source::Aim;
use device::Device;
use refusal::Refusal;

impl Aim<'_> {
    // Both configuration words, since nothing erases them in an update.
    #[tactic(auto, unfolding(crate::specs::Refusal::config_ok))]
    fn config_ok(&self) -> bool
        requires { length self.now.reading.now ≡ self.now.device.words + reading_tail }
        ensures { result ≡ config_ok self.now.device self.now.image.now self.now.reading.now }
    {
        let first = (self.device.words as usize) + 7;
        let second = (self.device.words as usize) + 8;
        only_clears(self.wanted(first), self.reading[first])
            && only_clears(self.wanted(second), self.reading[second])
    }

    // What an update is refused with, room apart.
    #[tactic(auto, using(device::specs::LawsMemory::reading_long), unfolding(crate::specs::Refusal::update_number, device::specs::Record::record_number, words::specs::Choice::pick))]
    pub fn update_refusal(&self) -> Result<(), Refusal>
        ensures { number_in result ≡ update_number self.now.device self.now.image.now self.now.reading.now }
    {
        let d = self.device;
        device::judge(d)?;
        if !device::is_image(d.words, self.image) {
            return Err(Refusal::Image);
        }
        if !device::is_reading(d.words, self.reading) {
            return Err(Refusal::Reading);
        }
        if !device::fits(d, self.reading[(d.words as usize) + 6]) {
            return Err(Refusal::WrongBoard);
        }
        if device::is_protected(d.words, self.reading) {
            return Err(Refusal::ProtectedBoard);
        }
        if !self.config_ok() {
            return Err(Refusal::ConfigurationRises);
        }
        Ok(())
    }
}

// What a fresh programming is refused with, room apart.
#[tactic(auto, unfolding(crate::specs::Refusal::fresh_number, device::specs::Record::record_number, words::specs::Choice::pick))]
pub fn fresh_refusal(d: Device, image: &[u16], id_word: u16) -> Result<(), Refusal>
    ensures { number_in result ≡ fresh_number d image.now id_word }
{
    device::judge(d)?;
    if !device::is_image(d.words, image) {
        return Err(Refusal::Image);
    }
    if !device::fits(d, id_word) {
        return Err(Refusal::WrongBoard);
    }
    Ok(())
}
