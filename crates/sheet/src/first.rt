// Line 1 of a sheet, in either form.
ghost use Rattle.std.specs.Prelude.{◌≡◌, false, ◌<◌, MatchOption, eqb, get_or};
ghost use Rattle.numerals.specs.Text.{tab};
ghost use Rattle.sheet.specs.FirstLine.{line_ok, is_new, id_in};
ghost use Rattle.sheet.specs.LawsFirstLine.{HeadOf, LabelOf};

use crate::{LF, TAB};
use numerals::hex;
use words::WORD_LIMIT;

// What line 1 tells: an ID, in the new form a name and a sum too; and what stands after it.
#[derive(Clone, Copy)]
pub(crate) struct Head<'a> {
    pub id: u16,
    pub label: Option<Label<'a>>,
    pub rest: &'a [u8],
}

#[derive(Clone, Copy)]
pub(crate) struct Label<'a> {
    pub name: &'a [u8],
    pub sum: u16,
}

// Reads line 1: after an ID that some record can have stands LF in the old form, a tab in the new one.
pub(crate) fn read_line(text: &[u8]) -> Option<Head<'_>>
    ensures { MatchOption result (line_ok text.now ≡ false) (λ h. HeadOf text.now h.id h.rest.now × MatchOption h.label (is_new text.now ≡ false) (λ l. LabelOf text.now l.name.now l.sum)) }
{
    let id = hex::capital_word(text, 0)?;
    if WORD_LIMIT <= id {
        return None;
    }
    match text.get(4)? {
        b'\n' => Some(Head {
            id,
            label: None,
            rest: &text[5..],
        }),
        b'\t' => read_fields(text, id),
        _ => None,
    }
}

// The name and the sum after the first tab.
fn read_fields(text: &[u8], id: u16) -> Option<Head<'_>>
    requires id { id ≡ id_in text.now }
    requires word { id < 0x4000 }
    requires first { get_or text.now 4 0 ≡ tab }
    ensures { MatchOption result (line_ok text.now ≡ false) (λ h. HeadOf text.now h.id h.rest.now × MatchOption h.label (is_new text.now ≡ false) (λ l. LabelOf text.now l.name.now l.sum)) }
{
    let end = marks::find(text, 5, text.len(), TAB);
    let name = &text[5..end];
    if !table::is_name(name) {
        return None;
    }
    let sum = hex::capital_word(text, end + 1)?;
    if !byte_is(text, end + 5, LF) {
        return None;
    }
    Some(Head {
        id,
        label: Some(Label { name, sum }),
        rest: &text[end + 6..],
    })
}

// Whether a byte stands at a place: past the end none does.
#[tactic(auto, using(crate::specs::LawsRead::byte_past))]
pub(crate) fn byte_is(text: &[u8], at: usize, byte: u8) -> bool
    requires { 0 < byte }
    ensures { result ≡ eqb (get_or text.now at 0) byte }
{
    text.get(at) == Some(&byte)
}
