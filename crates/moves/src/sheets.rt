// A sheet of either form, read under a table and written in one of them, with line 1's ID.
ghost use Rattle.std.specs.Prelude.{◌≡◌};
ghost use Rattle.sheetwrite.specs.Write.{written_told};
ghost use Rattle.moves.specs.Move.{move_number, new_of, old_of, moved, moved_text};
ghost use Rattle.moves.specs.LawsWords.{form_of};

use device::{Device, MOST_WORDS, READING_TAIL};
use refusal::Refusal;

// The most words that a reading has: a move serves every record.
const LONGEST_READING: usize = (MOST_WORDS as usize) + READING_TAIL;

// The form that a sheet is written in.
#[derive(Clone, Copy)]
pub(crate) enum Form {
    New,
    Old,
}

// Writes a sheet in the new form, or nothing where it is refused.
pub fn to_new(table: &[u8], text: &[u8], out: &mut [u8]) -> Result<usize, Refusal>
    ensures answer { written_told result ≡ moved (move_number table.now text.now) (new_of table.now text.now) out.old }
    ensures buffer { out.new ≡ moved_text (move_number table.now text.now) (new_of table.now text.now) out.old }
{
    move_to(Form::New, table, text, out)
}

// Writes a sheet in the old form, or nothing where it is refused.
pub fn to_old(table: &[u8], text: &[u8], out: &mut [u8]) -> Result<usize, Refusal>
    ensures answer { written_told result ≡ moved (move_number table.now text.now) (old_of table.now text.now) out.old }
    ensures buffer { out.new ≡ moved_text (move_number table.now text.now) (old_of table.now text.now) out.old }
{
    move_to(Form::Old, table, text, out)
}

// Writes a sheet in a form.
#[tactic(auto, using(crate::specs::LawsWords::told_unfound, crate::specs::LawsWords::move_read_again, crate::specs::LawsWords::read_is, crate::specs::LawsWords::told_unread))]
pub(crate) fn move_to(
    form: Form,
    table: &[u8],
    text: &[u8],
    out: &mut [u8],
) -> Result<usize, Refusal>
    ensures answer { written_told result ≡ moved (move_number table.now text.now) (form_of form table.now text.now) out.old }
    ensures buffer { out.new ≡ moved_text (move_number table.now text.now) (form_of form table.now text.now) out.old }
{
    let found = board::find_record(table, text)?;
    let id = sheet::read_id(text)?;
    let name = found.name(table);
    let count = (found.device.words as usize) + READING_TAIL;
    let mut words = [0u16; LONGEST_READING];
    sheet::read_sheet(found.device, name, text, &mut words[..count])?;
    let named = Device { id, ..found.device };
    match form {
        Form::New => sheetwrite::write_new_sheet(named, name, &words[..count], out),
        Form::Old => sheetwrite::write_sheet(named, &words[..count], out),
    }
}
