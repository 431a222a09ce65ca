// One line of a device table: six or seven fields parted by tabs.
ghost use Rattle.std.specs.Prelude.{◌≡◌, false, MatchOption};
ghost use Rattle.std.specs.List.{list_all};
ghost use Rattle.words.specs.Choice.{below};
ghost use Rattle.device.specs.Record.{most_words};
ghost use Rattle.table.specs.Table.{name_ok, hex_field, id_of, id_mask_of, device_of, clash, line_up_to};
ghost use Rattle.table.specs.LawsLine.{six_or_seven, printable, Seven, NotMade, Made, LineRead};

use crate::pieces::split_once;
use device::{Device, MOST_WORDS, judge};
use numerals::{decimal, hex};

// The fields of a line, each as it stands there; a line of six has the text of every bit for the ID's mask.
#[derive(Clone, Copy)]
struct Fields<'a> {
    name: &'a [u8],
    id: &'a [u8],
    words: &'a [u8],
    row: &'a [u8],
    mask1: &'a [u8],
    mask2: &'a [u8],
    idmask: &'a [u8],
}

// What a line gives: a device, and the length of its name.
#[derive(Clone, Copy)]
pub(crate) struct Line {
    pub name: usize,
    pub device: Device,
}

const TAB: u8 = b'\t';

const EVERY_BIT: &[u8] = b"3FFF";

// What a line gives, if it keeps every rule.
pub(crate) fn read_line(line: &[u8]) -> Option<Line>
    ensures { MatchOption result (line_up_to most_words line.now ≡ false) (λ l. LineRead line.now l.name l.device) }
{
    let fields = cut(line)?;
    if !is_name(fields.name) {
        return None;
    }
    let device = device_of(fields)?;
    Some(Line {
        name: fields.name.len(),
        device,
    })
}

// The fields of a line, if it has six or seven.
fn cut(line: &[u8]) -> Option<Fields<'_>>
    ensures { MatchOption result (six_or_seven line.now ≡ false) (λ f. Seven line.now f.name.now f.id.now f.words.now f.row.now f.mask1.now f.mask2.now f.idmask.now) }
{
    let (name, rest) = split_once(line, TAB)?;
    let (id, rest) = split_once(rest, TAB)?;
    let (words, rest) = split_once(rest, TAB)?;
    let (row, rest) = split_once(rest, TAB)?;
    let (mask1, rest) = split_once(rest, TAB)?;
    let (mask2, idmask) = split_once(rest, TAB).unwrap_or((rest, EVERY_BIT));
    if split_once(idmask, TAB).is_some() {
        return None;
    }
    Some(Fields {
        name,
        id,
        words,
        row,
        mask1,
        mask2,
        idmask,
    })
}

// The device that the fields of a line give, if they keep the rules of a record.
fn device_of(fields: Fields<'_>) -> Option<Device>
    ensures { let f = fields.entry in
        MatchOption result (NotMade f.id.now f.words.now f.row.now f.mask1.now f.mask2.now f.idmask.now) (λ d. Made f.id.now f.words.now f.row.now f.mask1.now f.mask2.now f.idmask.now d) }
{
    let id = hex_field(fields.id)?;
    let words = decimal::read(fields.words, MOST_WORDS as u32)?;
    let row = decimal::read(fields.row, 32)?;
    let mask1 = hex_field(fields.mask1)?;
    let mask2 = hex_field(fields.mask2)?;
    let idmask = hex_field(fields.idmask)?;
    let device = Device {
        id,
        words: words as u16,
        row: row as u16,
        mask1,
        mask2,
        idmask,
    };
    judge(device).ok()?;
    Some(device)
}

// Whether the device that a line gives clashes with another; the line may break any rule, and a field that is no number then counts as 0.
pub(crate) fn line_clashes(line: &[u8], d: Device) -> bool
    ensures { result ≡ clash d (device_of line.now) }
{
    let both = d.idmask & line_mask(line).unwrap_or(0);
    let id = line_id(line).unwrap_or(0);
    d.id & both == id & both
}

// The ID that a line gives, if its second field is a number.
fn line_id(line: &[u8]) -> Option<u16>
    ensures { result ≡ below 65536 (id_of line.now) }
{
    let (_, rest) = split_once(line, TAB)?;
    let (id, _) = split_once(rest, TAB).unwrap_or((rest, rest));
    hex_field(id)
}

// The ID's mask that a line gives: the last of seven fields, and every bit of any other line.
fn line_mask(line: &[u8]) -> Option<u16>
    ensures { result ≡ below 65536 (id_mask_of line.now) }
{
    match cut(line) {
        Some(fields) => hex_field(fields.idmask),
        None => Some(words::ERASED),
    }
}

// Whether a text is a name: 1 to 16 characters, 20h to 7Eh.
pub fn is_name(f: &[u8]) -> bool
    ensures { result ≡ name_ok f.now }
{
    match f.len() {
        1..=16 => all_printable(f),
        _ => false,
    }
}

fn all_printable(f: &[u8]) -> bool
    ensures { result ≡ list_all printable f.now }
{
    f.iter().all(|c| matches!(c, 0x20..=0x7e))
}

// The number of four capital hex digits, if the field is just that.
fn hex_field(f: &[u8]) -> Option<u16>
    ensures { result ≡ below 65536 (hex_field f.now) }
{
    if f.len() == 4 {
        hex::capital_word(f, 0)
    } else {
        None
    }
}
