// The programs newsheet and oldsheet.
ghost use Rattle.std.specs.Prelude.{◌≡◌, ◌≤◌};
ghost use Rattle.print.specs.Print.{Prints};
ghost use Rattle.board.specs.Open.{open_number};
ghost use Rattle.moves.specs.Programs.{newsheet_text, oldsheet_text};
ghost use Rattle.moves.specs.LawsWords.{form_of};
ghost use Rattle.moves.specs.LawsPrograms.{prints_moved};

use crate::sheets::{Form, move_to};
use board::MOST_PROGRAM;

// The longest sheet of a board that the programs serve: in the new form, with a name of 16 characters.
const MOST_SHEET: usize = 27 + 45 * ((MOST_PROGRAM as usize) / 8) + 50;

// Prints a board's sheet in the new form as far as there is room, and answers the length of the whole text.
pub fn newsheet(table: &[u8], sheet: &[u8], out: &mut [u8]) -> usize
    ensures { (Prints (newsheet_text table.now sheet.now) out.old result out.new) × (result ≤ 46157) }
{
    print_moved(Form::New, table, sheet, out)
}

// Prints a board's sheet in the old form as far as there is room, and answers the length of the whole text.
pub fn oldsheet(table: &[u8], sheet: &[u8], out: &mut [u8]) -> usize
    ensures { (Prints (oldsheet_text table.now sheet.now) out.old result out.new) × (result ≤ 46135) }
{
    print_moved(Form::Old, table, sheet, out)
}

// Prints a board's sheet in a form. A board that is too large for the programs is refused before its sheet is read.
#[tactic(auto, using(crate::specs::LawsPrograms::moved_unopened))]
fn print_moved(form: Form, table: &[u8], sheet: &[u8], out: &mut [u8]) -> usize
    ensures { Prints (prints_moved table.now sheet.now (form_of form table.now sheet.now)) out.old result out.new }
{
    match board::open_record(table, sheet) {
        Ok(_) => print_served(form, table, sheet, out),
        Err(unopened) => print::refusal(out, unopened.refusal.number(), 0, 0),
    }
}

// Prints the sheet of a board that the programs serve.
#[tactic(auto, using(crate::specs::LawsPrograms::served_told, crate::specs::LawsPrograms::served_all))]
fn print_served(form: Form, table: &[u8], sheet: &[u8], out: &mut [u8]) -> usize
    requires { 0 ≡ open_number table.now sheet.now }
    ensures { Prints (prints_moved table.now sheet.now (form_of form table.now sheet.now)) out.old result out.new }
{
    let mut whole = [0u8; MOST_SHEET];
    match move_to(form, table, sheet, &mut whole) {
        Ok(length) => print::text(out, &whole[..length]),
        Err(refusal) => print::refusal(out, refusal.number(), 0, 0),
    }
}
