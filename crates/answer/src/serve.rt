// Requests are read and answered one after another, to the end of the input or the first that is malformed.
use crate::request;
use ask::Answer;
use ask::room::Room;
use ask_io::{LF, Stop};
use std::io::Read;

// Answers the requests of the input. A proved loop has to end, and nothing says that an input does: so it turns as often as no run does.
pub(crate) fn serve(
    rt: &impl Print,
    input: &mut impl Read,
    text: &mut [u8],
    room: &mut Room,
) -> Result<(), Stop> {
    let mut have = 0;
    let mut line = 1;
    for _ in 0..u64::MAX {
        let filled = ask_io::fill(input, text, have)?;
        if filled <= have {
            return ask_io::end(text, have).map_err(|wrong| Stop::Request { line, wrong });
        }
        have = match text[..filled].iter().rposition(|c| *c == LF) {
            None => filled,
            Some(end) => {
                line = answer_lines(rt, &text[..end], line, room)?;
                ask_io::keep(text, end + 1, filled)
            }
        };
    }
    Ok(())
}

// Answers each line of a text, of which the first has a number, and answers the number of the next.
fn answer_lines(rt: &impl Print, lines: &[u8], first: u64, room: &mut Room) -> Result<u64, Stop> {
    let mut line = first;
    for request in lines.split(|c| *c == LF) {
        let mut out = Answer::new(&mut *room.out);
        request::answer(request, &mut *room.bytes, &mut *room.words, &mut out).map_err(
            |wrong| Stop::Request { line, wrong },
        )?;
        rt.write_all(out.written())?;
        line = line.saturating_add(1);
    }
    Ok(line)
}
