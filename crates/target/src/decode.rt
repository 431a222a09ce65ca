// Codes and payloads.
#![tactic(auto, using(words::specs::LawsChoice::tests), unfolding(crate::specs::Step::decoded, crate::specs::Step::load, crate::specs::Step::load_ok, crate::specs::Step::plain, words::specs::Choice::pick))]

ghost use Rattle.std.specs.Prelude.{◌≡◌};
ghost use Rattle.target.specs.Step.{load, plain, decoded, decoded_told};

use crate::Order;
use refusal::Refusal;

// The order of a code and a payload; refuses an unknown code, and a bad payload.
pub(crate) fn decode(code: u8, payload: u16) -> Result<Order, Refusal>
    ensures { decoded_told result ≡ decoded code payload }
{
    match code {
        0x00 => with_word(payload, Order::LoadConfiguration(payload / 2)),
        0x02 => with_word(payload, Order::LoadData(payload / 2)),
        0x04 => without(payload, Order::Read),
        0x06 => without(payload, Order::Increment),
        0x16 => without(payload, Order::ResetAddress),
        0x08 => without(payload, Order::Begin),
        0x09 => without(payload, Order::BulkErase),
        0x11 => without(payload, Order::RowErase),
        _ => Err(Refusal::UnknownCode),
    }
}

// A load's payload is a word times two.
fn with_word(payload: u16, order: Order) -> Result<Order, Refusal>
    ensures { decoded_told result ≡ load payload order }
{
    if payload % 2 == 0 && payload <= 0x7ffe {
        Ok(order)
    } else {
        Err(Refusal::BadPayload)
    }
}

// Every other payload is 0.
fn without(payload: u16, order: Order) -> Result<Order, Refusal>
    ensures { decoded_told result ≡ plain payload order }
{
    if payload == 0 {
        Ok(order)
    } else {
        Err(Refusal::BadPayload)
    }
}
