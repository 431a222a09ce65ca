// Requests on what a board is to hold and on the three streams.
#![tactic(auto)]

mod aims;
mod streams;

use ask::{Answer, Fields, Wrong};

// Puts the answer to a request of the crates aim and plan.
pub fn answer(name: &[u8], fields: &mut Fields, out: &mut Answer) -> Result<(), Wrong> {
    match name {
        b"plan.update" => streams::update(fields, out),
        b"plan.fresh" => streams::fresh(fields, out),
        b"plan.read_back" => streams::read_back(fields, out),
        b"plan.wanted" => aims::wanted(fields, out),
        b"plan.row_differs" => aims::row_is_so(fields, out, |a, k| a.row_differs(k)),
        b"plan.row_rises" => aims::row_is_so(fields, out, |a, k| a.row_rises(k)),
        b"plan.id_differs" => aims::id_is_so(fields, out, |a| a.id_differs()),
        b"plan.id_rises" => aims::id_is_so(fields, out, |a| a.id_rises()),
        b"plan.is_written" => aims::is_written(fields, out),
        b"plan.update_refusal" => aims::update_refusal(fields, out),
        b"plan.fresh_refusal" => aims::fresh_refusal(fields, out),
        _ => Err(Wrong::UnknownName),
    }
}
