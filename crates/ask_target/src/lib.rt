// Requests on the target model, and on the calls that a struct is lent to.
#![tactic(auto)]

mod model;
mod texts;

use ask::{Answer, Fields, Wrong};

// Puts the answer to a request of the crates target and lent.
pub fn answer(name: &[u8], fields: &mut Fields, out: &mut Answer) -> Result<(), Wrong> {
    match name {
        b"target.step" => model::step(
            fields,
            out,
            |d, r, c, p, w, m| match target::step(d, r, c, p, w, m) {
                Ok(left) => (left, Ok(())),
                Err(refusal) => (r, Err(refusal)),
            },
        ),
        b"lent.step_on" => model::step(
            fields,
            out,
            |d, r, c, p, w, m| lent::step_on(d, r, c, p, w, m),
        ),
        b"lent.step_method" => model::step(
            fields,
            out,
            |d, r, c, p, w, m| lent::step_method(d, r, c, p, w, m),
        ),
        b"target.run" => model::run(fields, out),
        b"lent.first_number" => texts::first_number(fields, out),
        b"lent.third_line" => texts::third_line(fields, out),
        _ => Err(Wrong::UnknownName),
    }
}
