// Answers requests on the proved calls, a line each, as docs/ANSWER.md says.
#![tactic(auto)]

mod request;
mod serve;

use ask::room;
use ask::room::Room;
use ask_io::Stop;
use std::process::ExitCode;

// Room is made once, since requests may be many and short. A message that cannot be written is lost, as the request is.
fn main(rt: HostRuntime) -> ExitCode {
    let mut text = room::zeros::<u8, { room::LINE }>();
    let mut out = room::zeros::<u8, { room::LINE }>();
    let mut bytes = room::zeros::<u8, { room::BYTES }>();
    let mut words = room::zeros::<u16, { room::WORDS }>();
    let mut room = Room {
        bytes: &mut bytes,
        words: &mut words,
        out: &mut out,
    };
    let served = serve::serve(&rt, &mut rt.stdin(), &mut text, &mut room);
    let Err(stop) = served else {
        return ExitCode::SUCCESS;
    };
    let _ = eprintln!(rt; "answer: {stop}");
    match stop {
        Stop::Io(_) => ExitCode::FAILURE,
        Stop::Request { .. } => ExitCode::SUCCESS,
    }
}
