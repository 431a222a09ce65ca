// Plays a printed stream on the model of a board and prints the sheet afterwards, or why it is refused: device.tab, board.txt and stream.txt, or the three files that the arguments name.
#![tactic(auto)]

use std::process::ExitCode;

fn main(rt: HostRuntime) -> ExitCode {
    files::run(
        &rt,
        &mut rt.stdout(),
        Some(b"stream.txt"),
        &mut [0; 262145],
        &mut [0; 46135],
        |table, sheet, stream, out| trials::trial(table, sheet, stream, out),
    )
}
