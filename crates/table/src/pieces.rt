// A text parted at a mark.
ghost use Rattle.std.specs.Prelude.{◌≡◌, ◌==◌, [], ◌∷◌, MatchOption, position};
ghost use Rattle.numerals.specs.Text.{split};
ghost use Rattle.table.specs.LawsPieces.{Parted};

// What stands before the first mark of a text, and what stands after it, if there is one.
pub(crate) fn split_once(text: &[u8], mark: u8) -> Option<(&[u8], &[u8])>
    ensures { MatchOption result (split mark text.now ≡ text.now ∷ []) (λ p. Parted mark text.now p.0.now p.1.now) }
{
    let at = find(text, mark)?;
    Some((&text[..at], &text[at + 1..]))
}

// Where the first mark of a text stands.
fn find(text: &[u8], mark: u8) -> Option<usize>
    ensures { result ≡ position (λ c. c == mark) text.now }
{
    text.iter().position(|c| *c == mark)
}
