// Board sheets, moved between their two forms.
ghost use Rattle.std.specs.Prelude.{◌≡◌};
ghost use Rattle.moves.specs.Move.{move_number, new_of, old_of, moved, moved_text};
ghost use Rattle.capi.specs.Crossing.{sheet_answer};

use crate::told::told;

// A sheet moved to the new form.
#[unsafe(no_mangle)]
pub extern "C" fn tickmallet_to_new(
    table: &[u8],
    text: &[u8],
    out: &mut [u8],
    length: &mut usize,
) -> u8
    ensures { (sheet_answer result length.new ≡ moved (move_number table.now text.now) (new_of table.now text.now) out.old)
        × (out.new ≡ moved_text (move_number table.now text.now) (new_of table.now text.now) out.old) }
{
    told(moves::to_new(table, text, out), 0, length)
}

// A sheet moved to the old form.
#[unsafe(no_mangle)]
pub extern "C" fn tickmallet_to_old(
    table: &[u8],
    text: &[u8],
    out: &mut [u8],
    length: &mut usize,
) -> u8
    ensures { (sheet_answer result length.new ≡ moved (move_number table.now text.now) (old_of table.now text.now) out.old)
        × (out.new ≡ moved_text (move_number table.now text.now) (old_of table.now text.now) out.old) }
{
    told(moves::to_old(table, text, out), 0, length)
}
