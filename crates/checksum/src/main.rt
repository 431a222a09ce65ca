// Prints the checksum of a board's sheet, or why it is refused: device.tab and board.txt, or the two files that the arguments name.
#![tactic(auto)]

use std::process::ExitCode;

fn main(rt: HostRuntime) -> ExitCode {
    files::run(
        &rt,
        &mut rt.stdout(),
        None,
        &mut [],
        &mut [0; 64],
        |table, sheet, _, out| reports::checksum(table, sheet, out),
    )
}
