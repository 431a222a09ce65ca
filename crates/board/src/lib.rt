// A board, opened: the record that the table has for the ID on the sheet's first line, and the sheet's reading under it. No call here has a `requires`.
#![tactic(auto)]

ghost use Rattle.std.specs.Prelude.{◌≡◌, MatchResult};
ghost use Rattle.print.specs.Print.{Prints};
ghost use Rattle.board.specs.Open.{number_told, place_of, find_number, open_number, board_number, opened_reading};
ghost use Rattle.board.specs.Sheet.{printed_sheet};

use device::{Device, READING_TAIL};
use refusal::Refusal;
use table::Found;

// The most program words of a board that the programs serve: their buffers have room for no more.
pub const MOST_PROGRAM: u16 = 8192;

// The most words that the reading of such a board has.
pub const MOST_READING: usize = (MOST_PROGRAM as usize) + READING_TAIL;

// The longest sheet of such a board, in the old form.
const MOST_SHEET: usize = 5 + 45 * ((MOST_PROGRAM as usize) / 8) + 50;

// Why a board is refused, and what the table has all the same for the ID on line 1, or for the ID 0 where that line is malformed. Where it has nothing the numbers are 0, so that what was found is told alike of every board.
#[derive(Clone, Copy, Debug, PartialEq, Eq)]
pub struct Unopened {
    pub refusal: Refusal,
    pub found: Found,
}

impl From<Unopened> for Refusal {
    ghost from_gives = { λ u e. e ≡ u.refusal };

    fn from(unopened: Unopened) -> Refusal {
        unopened.refusal
    }
}

const NOTHING: Found = Found {
    device: Device {
        id: 0,
        words: 0,
        row: 0,
        mask1: 0,
        mask2: 0,
        idmask: 0,
    },
    name_at: 0,
    name_len: 0,
};

// Finds the record, however large the part; a malformed table is told before a malformed sheet.
pub fn find_record(table: &[u8], sheet: &[u8]) -> Result<Found, Unopened>
    ensures number { number_told result ≡ find_number table.now sheet.now }
    ensures found { MatchResult result (λ f. f ≡ place_of table.now sheet.now) (λ u. u.found ≡ place_of table.now sheet.now) }
{
    let line = sheet::read_id(sheet);
    match table::find_device(table, line.unwrap_or(0)) {
        Ok(found) => match line {
            Ok(_) => Ok(found),
            Err(unread) => Err(Unopened {
                refusal: unread,
                found,
            }),
        },
        Err(unfound) => {
            let refusal = match unfound {
                Refusal::Table => unfound,
                _ => line.err().unwrap_or(unfound),
            };
            let found = NOTHING;
            Err(Unopened { refusal, found })
        }
    }
}

// Finds the record of a board that the programs serve.
#[tactic(auto, using(crate::specs::LawsOpen::open_unfound, crate::specs::LawsOpen::open_large, crate::specs::LawsOpen::open_found))]
pub fn open_record(table: &[u8], sheet: &[u8]) -> Result<Found, Unopened>
    ensures number { number_told result ≡ open_number table.now sheet.now }
    ensures found { MatchResult result (λ f. f ≡ place_of table.now sheet.now) (λ u. u.found ≡ place_of table.now sheet.now) }
{
    let found = find_record(table, sheet)?;
    if MOST_PROGRAM < found.device.words {
        let refusal = Refusal::PartTooLarge;
        return Err(Unopened { refusal, found });
    }
    Ok(found)
}

// Finds the record and stores the sheet's reading under it; a board that is refused leaves the buffer.
#[tactic(auto, using(crate::specs::LawsBoard::board_unopened, crate::specs::LawsBoard::board_kept, crate::specs::LawsBoard::read_room, crate::specs::LawsBoard::read_number_is, crate::specs::LawsBoard::read_stored, crate::specs::LawsBoard::read_kept))]
pub fn open_board(
    table: &[u8],
    sheet: &[u8],
    reading: &mut [u16; MOST_READING],
) -> Result<Found, Unopened>
    ensures number { number_told result ≡ board_number table.now sheet.now }
    ensures found { MatchResult result (λ f. f ≡ place_of table.now sheet.now) (λ u. u.found ≡ place_of table.now sheet.now) }
    ensures buffer { reading.new ≡ opened_reading table.now sheet.now reading.old }
{
    let found = open_record(table, sheet)?;
    let count = usize::from(found.device.words) + READING_TAIL;
    let name = found.name(table);
    match sheet::read_sheet(found.device, name, sheet, &mut reading[..count]) {
        Ok(()) => Ok(found),
        Err(refusal) => Err(Unopened { refusal, found }),
    }
}

// Prints the sheet of a reading with this ID on line 1, in the old form and as far as there is room, and answers the length of the whole text. A reading or a record that is refused, or a part that the programs do not serve, is printed as a refusal.
#[tactic(auto, using(crate::specs::LawsWritten::sheet_refused, crate::specs::LawsWritten::sheet_stored))]
pub fn print_sheet(d: Device, id: u16, reading: &[u16], out: &mut [u8]) -> usize
    ensures { Prints (printed_sheet d id reading.now) out.old result out.new }
{
    let mut sheet = [0u8; MOST_SHEET];
    match sheetwrite::write_sheet(Device { id, ..d }, reading, &mut sheet) {
        Ok(length) => print::text(out, &sheet[..length]),
        Err(refusal) => print::refusal(out, refusal.number(), 0, 0),
    }
}
