// Where a byte first stands in a part of a text. No call here has a `requires`.
#![tactic(auto)]

ghost use Rattle.std.specs.Prelude.{◌≡◌, ◌+◌, ◌≤◌};
ghost use Rattle.marks.specs.Marks.{index_of, slice};

// The place of the first byte from a place on that is the mark; the end where none is.
pub fn find(text: &[u8], from: usize, to: usize, mark: u8) -> usize
    ensures place { result ≡ from + index_of mark (slice from to text.now) }
    ensures within { from ≤ to → result ≤ to }
{
    let end = to.min(text.len());
    for at in from..end {
        if text[at] == mark {
            return at;
        }
    }
    from.max(end)
}
