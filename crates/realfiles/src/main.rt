// HEX files as stock tools write them: how each is read, and the words that it gives. docs/REAL-FILES.md has the command that made each.
#![tactic(auto)]

mod show;

use std::io;

fn main(rt: HostRuntime) -> io::Result<()> {
    show::file(&rt, "assembled.hex")?;
    show::file(&rt, "dos.hex")?;
    show::file(&rt, "linked.hex")?;
    show::file(&rt, "srecord.hex")?;
    show::file(&rt, "short.hex")?;
    show::file(&rt, "started.hex")?;
    show::file(&rt, "objcopy.hex")?;
    show::file(&rt, "objcopy_start.hex")?;
    show::file(&rt, "rewritten.hex")?;
    show::file(&rt, "far.hex")?;
    show::file(&rt, "motorola.hex")
}
