// Prints the steps that bring a board to a HEX file's words, or why they are refused: device.tab, board.txt and new.hex, or the three files that the arguments name.
#![tactic(auto)]

use std::process::ExitCode;

fn main(rt: HostRuntime) -> ExitCode {
    files::run(
        &rt,
        &mut rt.stdout(),
        Some(b"new.hex"),
        &mut [0; 65537],
        &mut [0; 147632],
        |table, sheet, hex, out| listings::update(table, sheet, hex, out),
    )
}
