// Prints the sheet that a fresh programming is to leave, or why it is refused: device.tab, board.txt and new.hex, or the three files that the arguments name.
#![tactic(auto)]

use std::process::ExitCode;

fn main(rt: HostRuntime) -> ExitCode {
    files::run(
        &rt,
        &mut rt.stdout(),
        Some(b"new.hex"),
        &mut [0; 65537],
        &mut [0; 46135],
        |table, sheet, hex, out| listings::wanted_fresh(table, sheet, hex, out),
    )
}
