// Prints a board's sheet in the new form, or why it is refused: device.tab and board.txt, or the two files that the arguments name.
#![tactic(auto)]

use std::process::ExitCode;

fn main(rt: HostRuntime) -> ExitCode {
    files::run(
        &rt,
        &mut rt.stdout(),
        None,
        &mut [],
        &mut [0; 46157],
        |table, sheet, _, out| moves::newsheet(table, sheet, out),
    )
}
