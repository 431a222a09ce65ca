// Steps put into a stream. Whoever writes has counted the steps and knows that they fit, so that no store tests for room.
ghost use Rattle.std.specs.Prelude.{◌≡◌, [], ◌∷◌, ◌+◌, ◌*◌, ◌<◌, length};
ghost use Rattle.std.proofs.lemmas.List.Edits.{sets};
ghost use Rattle.target.specs.Stream.{code_of, payload_of, bytes_of};
ghost use Rattle.target.specs.LawsStream.{FitsOrder};
ghost use Rattle.plan.specs.Steps.{walk, erasing, reads};
ghost use Rattle.plan.specs.LawsPlanWrote.{Wrote, Room, ample};

use target::Order;

// The code of an order.
#[tactic(auto, unfolding(target::specs::Stream::code_of))]
fn code_of(o: Order) -> u8
    ensures { result ≡ code_of o }
{
    match o {
        Order::LoadConfiguration(_) => 0x00,
        Order::LoadData(_) => 0x02,
        Order::Read => 0x04,
        Order::Increment => 0x06,
        Order::ResetAddress => 0x16,
        Order::Begin => 0x08,
        Order::BulkErase => 0x09,
        Order::RowErase => 0x11,
    }
}

// The payload of an order: twice the word of a load.
#[tactic(auto, unfolding(target::specs::Stream::payload_of))]
fn payload_of(o: Order) -> u16
    requires { FitsOrder o }
    ensures { result ≡ payload_of o }
{
    match o {
        Order::LoadConfiguration(w) | Order::LoadData(w) => 2 * w,
        _ => 0,
    }
}

// One step put into a stream that has so many before it: code, payload low, payload high. It answers how many there are then.
pub(crate) fn put_order(out: &mut [u8], steps: usize, o: Order) -> usize
    requires fits_order { FitsOrder o }
    requires few { steps < ample }
    requires room { 3 * steps + 2 < length out.old }
    ensures bytes { out.new ≡ sets out.old (3 * steps) (bytes_of (o ∷ [])) }
    ensures count { result ≡ steps + 1 }
{
    let at = 3 * steps;
    let payload = payload_of(o).to_le_bytes();
    out[at] = code_of(o);
    out[at + 1] = payload[0];
    out[at + 2] = payload[1];
    steps + 1
}

// A stream that is being written into a lent buffer, and how many steps of it stand there.
#[derive(Drop)]
pub(crate) struct Writer<'a> {
    pub(crate) out: &'a mut [u8],
    pub(crate) steps: usize,
}

impl Writer<'_> {
    // One step.
    pub(crate) fn put(&mut self, o: Order)
        requires fits_order { FitsOrder o }
        requires room { Room (o ∷ []) self.old }
        ensures { Wrote (o ∷ []) self.old self.new }
    {
        self.steps = put_order(self.out, self.steps, o);
    }

    // Increments from one place up to another.
    pub(crate) fn walk(&mut self, from: usize, to: usize)
        requires { Room (walk from to) self.old }
        ensures { Wrote (walk from to) self.old self.new }
    {
        for _ in from..to {
            self.put(Order::Increment);
        }
    }

    // Row Erase where it is asked for.
    pub(crate) fn erase(&mut self, erase: bool)
        requires { Room (erasing erase) self.old }
        ensures { Wrote (erasing erase) self.old self.new }
    {
        if erase {
            self.put(Order::RowErase);
        }
    }

    // Reads of so many words, with an Increment between each two.
    pub(crate) fn reads(&mut self, count: usize)
        requires count_nonzero { 0 < count }
        requires room { Room (reads count) self.old }
        ensures { Wrote (reads count) self.old self.new }
    {
        for _ in 1..count {
            self.put(Order::Read);
            self.put(Order::Increment);
        }
        self.put(Order::Read);
    }
}
