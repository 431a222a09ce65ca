// Prints the steps that read a board's words, or why they are refused: device.tab and board.txt, of which only line 1 counts, or the two files that the arguments name.
#![tactic(auto)]

use std::process::ExitCode;

fn main(rt: HostRuntime) -> ExitCode {
    files::run(
        &rt,
        &mut rt.stdout(),
        None,
        &mut [],
        &mut [0; 147632],
        |table, sheet, _, out| listings::readback(table, sheet, out),
    )
}
