// The programs update, fresh, wanted and wanted_fresh. They differ in nothing but the planner, and in what is printed of its plan: the stream, or the sheet that it is to leave.
ghost use Rattle.std.specs.Prelude.{◌≡◌, true, ◌*◌, ◌≤◌, ◌<◌, replicate, IfOk, MatchResult};
ghost use Rattle.refusal.specs.Refusal.{number_in};
ghost use Rattle.device.specs.Record.{device_up_to};
ghost use Rattle.device.specs.Memory.{reading_ok};
ghost use Rattle.target.specs.Stream.{bytes_of};
ghost use Rattle.print.specs.Print.{Prints};
ghost use Rattle.board.specs.Open.{most_program};
ghost use Rattle.board.specs.LawsBoard.{most_reading, Holds};
ghost use Rattle.listings.specs.Streams.{update_text, fresh_text};
ghost use Rattle.listings.specs.Wanteds.{wanted_text, wanted_fresh_text};
ghost use Rattle.listings.specs.LawsPlans.{is_fresh, is_sheet, plan_number, plan_steps, known_to, end_text, program_text, Given, Refused};

use crate::{streams, wanteds};
use aim::Aim;
use board::MOST_READING;
use device::{Device, READING_TAIL};
use hexread::Misread;
use refusal::Refusal;
use streams::MOST_STREAM;
use words::NOT_GIVEN;

// The longest HEX file that the programs take.
const MOST_HEX: usize = 65536;

// Which planner a program asks.
#[derive(Clone, Copy)]
pub(crate) enum Planner {
    Update,
    Fresh,
}

// What a program prints of the plan.
#[derive(Clone, Copy)]
enum Printed {
    Stream,
    Sheet,
}

impl Planner {
    // The steps that it writes: a fresh programming takes no more of the reading than the ID word.
    fn ask(self, aim: Aim, stream: &mut [u8; MOST_STREAM]) -> Result<usize, Refusal>
        requires { (device_up_to most_program aim.device ≡ true) × (reading_ok aim.device.words aim.reading.now ≡ true) }
        ensures number { number_in result ≡ plan_number (is_fresh self) aim.entry.device aim.entry.image.now aim.entry.reading.now }
        ensures steps { IfOk result (λ n. Holds (bytes_of (plan_steps (is_fresh self) aim.entry.device aim.entry.image.now aim.entry.reading.now)) (3 * n) stream.new) }
    {
        let d = aim.device;
        match self {
            Planner::Update => plan::update(d, aim.image, aim.reading, stream),
            Planner::Fresh => {
                let id_place = (d.words as usize) + 6;
                plan::fresh(d, aim.image, aim.reading[id_place], stream)
            }
        }
    }

    // What it knows of a board: a fresh programming knows nothing.
    #[tactic(auto, unfolding(crate::specs::LawsPlans::known_to, words::specs::Choice::pick))]
    pub(crate) fn known(self, reading: &[u16]) -> &[u16]
        ensures { result.now ≡ known_to (is_fresh self) reading.now }
    {
        match self {
            Planner::Update => reading,
            Planner::Fresh => &[],
        }
    }
}

// Prints the stream that makes the sheet's board hold what the HEX file gives, as far as there is room, and answers the length of the whole text.
pub fn update(table: &[u8], sheet: &[u8], hex: &[u8], out: &mut [u8]) -> usize
    ensures { (Prints (update_text table.now sheet.now hex.now) out.old result out.new) × (result ≤ 147632) }
{
    put_program(table, sheet, hex, Planner::Update, Printed::Stream, out)
}

// Prints the stream that programs any board from nothing as far as there is room, and answers the length of the whole text.
pub fn fresh(table: &[u8], sheet: &[u8], hex: &[u8], out: &mut [u8]) -> usize
    ensures { (Prints (fresh_text table.now sheet.now hex.now) out.old result out.new) × (result ≤ 147632) }
{
    put_program(table, sheet, hex, Planner::Fresh, Printed::Stream, out)
}

// Prints the sheet that an update is to leave as far as there is room, and answers the length of the whole text.
pub fn wanted(table: &[u8], sheet: &[u8], hex: &[u8], out: &mut [u8]) -> usize
    ensures { (Prints (wanted_text table.now sheet.now hex.now) out.old result out.new) × (result ≤ 46135) }
{
    put_program(table, sheet, hex, Planner::Update, Printed::Sheet, out)
}

// Prints the sheet that a fresh programming is to leave as far as there is room, and answers the length of the whole text.
pub fn wanted_fresh(table: &[u8], sheet: &[u8], hex: &[u8], out: &mut [u8]) -> usize
    ensures { (Prints (wanted_fresh_text table.now sheet.now hex.now) out.old result out.new) × (result ≤ 46135) }
{
    put_program(table, sheet, hex, Planner::Fresh, Printed::Sheet, out)
}

// The text of each program.
fn put_program(
    table: &[u8],
    sheet: &[u8],
    hex: &[u8],
    planner: Planner,
    printed: Printed,
    out: &mut [u8],
) -> usize
    ensures { Prints (program_text (is_fresh planner) (is_sheet printed) table.now sheet.now hex.now) out.old result out.new }
{
    let mut reading = [0u16; MOST_READING];
    let mut image = [NOT_GIVEN; MOST_READING];
    match given(table, sheet, hex, &mut reading, &mut image) {
        Ok((device, id)) => {
            let count = (device.words as usize) + READING_TAIL;
            let aim = Aim {
                device,
                image: &image[..count],
                reading: &reading[..count],
            };
            put_planned(aim, id, planner, printed, out)
        }
        Err(misread) => print::refusal(out, misread.refusal.number(), misread.line, misread.column),
    }
}

// The device and the ID on line 1 of a board, its reading, and the image of a HEX file: the board is judged, and then the file.
fn given(
    table: &[u8],
    sheet: &[u8],
    hex: &[u8],
    reading: &mut [u16; MOST_READING],
    image: &mut [u16; MOST_READING],
) -> Result<(Device, u16), Misread>
    requires { reading.old ≡ replicate most_reading 0 }
    ensures { MatchResult result (λ g. Given table.now sheet.now hex.now g.0 g.1 reading.new image.new) (λ m. Refused table.now sheet.now hex.now m) }
{
    let device = match board::open_board(table, sheet, reading) {
        Ok(found) => found.device,
        Err(unopened) => return Err(at_no_line(unopened.refusal)),
    };
    if MOST_HEX < hex.len() {
        return Err(at_no_line(Refusal::TextTooLong));
    }
    let count = (device.words as usize) + READING_TAIL;
    hexread::read_hex(device, hex, &mut image[..count])?;
    Ok((device, sheet::read_id(sheet).unwrap()))
}

// A refusal for which no line is to blame.
fn at_no_line(refusal: Refusal) -> Misread
    ensures { result ≡ record { refusal = refusal; line = 0; column = 0 } }
{
    Misread {
        refusal,
        line: 0,
        column: 0,
    }
}

// The text for an image and a reading, a sheet with this ID on line 1: the planner is asked in any case, since what it refuses is refused here too.
fn put_planned(aim: Aim, id: u16, planner: Planner, printed: Printed, out: &mut [u8]) -> usize
    requires { (device_up_to most_program aim.device ≡ true) × (reading_ok aim.device.words aim.reading.now ≡ true) × (id < 0x4000) }
    ensures { Prints (end_text (is_fresh planner) (is_sheet printed) id aim.entry.device aim.entry.image.now aim.entry.reading.now) out.old result out.new }
{
    let mut stream = [0u8; MOST_STREAM];
    let steps = match planner.ask(aim, &mut stream) {
        Ok(steps) => steps,
        Err(refusal) => return print::refusal(out, refusal.number(), 0, 0),
    };
    match printed {
        Printed::Stream => streams::put_stream(out, &stream[..3 * steps]),
        Printed::Sheet => wanteds::put_left(aim, id, planner, out),
    }
}
