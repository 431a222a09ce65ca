// A record that keeps the rules.
ghost use Rattle.std.specs.Prelude.{◌≡◌, IfOk};
ghost use Rattle.refusal.specs.Refusal.{number_in};
ghost use Rattle.device.specs.Record.{record_number};
ghost use Rattle.device.specs.LawsRecord.{Rules};

use crate::{Device, judge};
use refusal::Refusal;

// A device whose record was judged: what stands on it need not ask again.
#[derive(Clone, Copy)]
pub struct Sound {
    pub device: Device,
    ghost rules: { Rules device },
}

impl Sound {
    // The record, if it keeps the rules.
    pub fn of(d: Device) -> Result<Sound, Refusal>
        ensures judged { number_in result ≡ record_number d }
        ensures same { IfOk result (λ s. s.device ≡ d) }
    {
        judge(d)?;
        Ok(Sound { device: d })
    }
}
