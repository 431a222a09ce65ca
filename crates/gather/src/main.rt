// Prints the sheet of the words that a read-back answered, or why it is refused: device.tab, board.txt, of which only line 1 counts, and words.txt, or the three files that the arguments name.
#![tactic(auto)]

use std::process::ExitCode;

fn main(rt: HostRuntime) -> ExitCode {
    files::run(
        &rt,
        &mut rt.stdout(),
        Some(b"words.txt"),
        &mut [0; 41006],
        &mut [0; 46135],
        |table, sheet, words, out| gathers::gather(table, sheet, words, out),
    )
}
