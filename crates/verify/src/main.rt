// Prints how a board's sheet differs from the wanted one, or why it is refused: device.tab, board.txt and wanted.txt, or the three files that the arguments name.
#![tactic(auto)]

use std::process::ExitCode;

fn main(rt: HostRuntime) -> ExitCode {
    files::run(
        &rt,
        &mut rt.stdout(),
        Some(b"wanted.txt"),
        &mut [0; 65536],
        &mut [0; 64],
        |table, sheet, wanted, out| reports::verify(table, sheet, wanted, out),
    )
}
