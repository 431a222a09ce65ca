// What no step is done on.
ghost use Rattle.std.specs.Prelude.{◌≡◌, IfOk};
ghost use Rattle.refusal.specs.Refusal.{number_in};
ghost use Rattle.target.specs.LawsStep.{judged};

use device::{CELLS_TAIL, Device, Sound};
use refusal::Refusal;

// Refuses a record that breaks the rules, and cells that are no words or not as many as the device has.
pub(crate) fn judge(d: Device, cells: &[u16]) -> Result<Sound, Refusal>
    ensures number { number_in result ≡ judged d cells.now }
    ensures same { IfOk result (λ s. s.device ≡ d) }
{
    let sound = Sound::of(d)?;
    if !words::list::is_words(cells, usize::from(d.words) + CELLS_TAIL) {
        return Err(Refusal::Cells);
    }
    Ok(sound)
}
