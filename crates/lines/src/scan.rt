// The end of a line in a text: bytes are passed eight at a time while no LF stands among them.
ghost use Rattle.std.specs.Prelude.{◌≡◌, ◌≤◌, length};
ghost use Rattle.lines.specs.Lines.{end_of};
ghost use Rattle.lines.specs.LawsLine.{Ended};

const LF: u8 = 10;

const CR: u8 = 13;

// Where the first LF from a place on stands; the text's end where none does.
pub(crate) fn line_stop(text: &[u8], from: usize) -> usize
    requires { from ≤ length text.now }
    ensures { (result ≡ end_of text.now from) × (result ≤ length text.now) }
{
    let mut at = from;
    for eight in text[from..].as_chunks::<8>().0 {
        if eight.contains(&LF) {
            break;
        }
        at += 8;
    }
    marks::find(text, at, text.len(), LF)
}

// The length of a line without the CR that belongs to its end.
pub(crate) fn line_end(piece: &[u8]) -> usize
    ensures { Ended piece.now result }
{
    piece.strip_suffix(&[CR]).unwrap_or(piece).len()
}
