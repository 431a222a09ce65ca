// Requests on boards that are opened, and on the texts that programs print.
#![tactic(auto)]

mod boards;
mod texts;

use ask::{Answer, Fields, Wrong};

// Puts the answer to a request of the crates board and print.
pub fn answer(name: &[u8], fields: &mut Fields, out: &mut Answer) -> Result<(), Wrong> {
    match name {
        b"print.refusal" => texts::refusal(fields, out),
        b"print.sum" => texts::sum(fields, out),
        b"print.verdict" => texts::verdict(fields, out),
        b"print.text" => texts::text(fields, out),
        b"board.find_record" => boards::find_record(fields, out),
        b"board.open_record" => boards::open_record(fields, out),
        b"board.open_board" => boards::open_board(fields, out),
        b"board.print_sheet" => boards::print_sheet(fields, out),
        _ => Err(Wrong::UnknownName),
    }
}
