// Prints a board's sheet as HEX text, or why it is refused: device.tab and board.txt, or the two files that the arguments name.
#![tactic(auto)]

use std::process::ExitCode;

fn main(rt: HostRuntime) -> ExitCode {
    files::run(
        &rt,
        &mut rt.stdout(),
        None,
        &mut [],
        &mut [0; 45144],
        |table, sheet, _, out| reports::dump(table, sheet, out),
    )
}
