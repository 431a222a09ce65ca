// What stands around a program's call: its files are opened and read, and its text is written.
#![tactic(auto)]

ghost use Rattle.std.specs.Prelude.{◌≡◌, ◌<◌, ◌≤◌, ℕ, length, take, IfSome, IsNone, IfOk};
ghost use Rattle.std.specs.Counts.{IsPrefixLen};
ghost use Rattle.std.specs.Io.{ReadsAtMost};
ghost use Rattle.std.specs.Io.KnownBytes.{Appends};
ghost use Rattle.std.specs.Process.{exit_status};

use std::env::{Env, FillError};
use std::fs::Files;
use std::io::{Read, Write};
use std::process::ExitCode;
use std::{fs, io};

// A program: its files are read, as far as there is room for them, and what is printed of them is written. The first two are device.tab
// and board.txt; a program that names no third one has none, and an empty one stands for it. An argument names another file in place of each.
pub fn run<R, W, P>(
    rt: &R,
    to: &mut W,
    third: Option<&[u8]>,
    other: &mut [u8],
    text: &mut [u8],
    print: P,
) -> ExitCode
where
    R: Files + Env + Eprint,
    W: Write,
    P: FnOnce(&[u8], &[u8], &[u8], &mut [u8]) -> usize,
    requires { P.IsAlwaysCallable print }
    ensures { exit_status result ≡ 0 → (table : _) × (sheet : _) × (given : _) × (room : _) × (n : ℕ) × (printed : _)
        × (P.post print table sheet given room n printed) × (room.now ≡ text.old) × (printed.now ≡ text.new)
        × (length given.now ≤ length other.old) × (IsNone third.entry → length given.now ≡ 0) × (n ≤ length text.new)
        × (Appends (W.contents to.old) (W.contents to.new) (take n text.new)) }
{
    let mut table = [0u8; 4096];
    let t = read(open(rt, 1, b"device.tab"), &mut table);
    let mut sheet = [0u8; 65536];
    let s = read(open(rt, 2, b"board.txt"), &mut sheet);
    let o = match third {
        Some(name) => read(open(rt, 3, name), other),
        None => 0,
    };
    let n = print(&table[..t], &sheet[..s], &other[..o], text);
    show(rt, to, text, n)
}

// Opens the file that an argument names, or else the one of this name.
pub fn open<R: Files + Env + Eprint>(rt: &R, argument: usize, name: &[u8]) -> Option<R::File> {
    let mut path = [0u8; 4096];
    match rt.arg(argument, &mut path) {
        Ok(n) => open_path(rt, &path[..n]),
        Err(FillError::NotPresent) => open_path(rt, name),
        Err(FillError::TooLong) => None,
    }
}

// Opens the file of a name that is text, and says on standard error if it is not, since no other can be opened.
fn open_path<R: Files + Eprint>(rt: &R, path: &[u8]) -> Option<R::File> {
    let Ok(path) = str::from_utf8(path) else {
        let _ = eprintln!(rt; "open: a name that is not UTF-8");
        return None;
    };
    fs::open(rt, path).ok()
}

// Reads as much of a file as the buffer takes and closes it. One that is not open or cannot be read counts as empty.
pub fn read<F: Read + Drop>(file: Option<F>, buffer: &mut [u8]) -> usize
    ensures within { IsPrefixLen result buffer.new }
    ensures room { length buffer.new ≡ length buffer.old }
    ensures bytes { IfSome file (λ f. IfSome (F.remaining f) (λ xs.
        0 < result → take result buffer.new ≡ take (length buffer.new) xs)) }
    ensures unopened { IsNone file → result ≡ 0 }
{
    let Some(mut file) = file else {
        return 0;
    };
    read_full(&mut file, buffer).unwrap_or(0)
}

// Reads until the buffer is full or the file ends. A `while`, since each read says how far the next one starts; std's read_exact
// refuses a file that ends before, and read_to_end needs a heap.
fn read_full<F: Read>(file: &mut F, buffer: &mut [u8]) -> io::Result<usize>
    ensures within { ReadsAtMost result buffer.new }
    ensures room { length buffer.new ≡ length buffer.old }
    ensures bytes { IfOk result (λ n. IfSome (F.remaining file.old) (λ xs.
        take n buffer.new ≡ take (length buffer.new) xs)) }
{
    let mut taken = 0;
    while taken < buffer.len() {
        let got = file.read(&mut buffer[taken..])?;
        if got == 0 {
            return Ok(taken);
        }
        taken += got;
    }
    Ok(taken)
}

// Writes the first n bytes to a program's standard output, and says on standard error if that fails or there are not so many. The status
// is 0 only where all of them were written.
pub fn show<W: Write>(rt: &impl Eprint, to: &mut W, out: &[u8], n: usize) -> ExitCode
    ensures whole { exit_status result ≡ 0 → n ≤ length out.now }
    ensures written { exit_status result ≡ 0 →
        Appends (W.contents to.old) (W.contents to.new) (take n out.now) }
{
    if out.len() < n {
        let _ = eprintln!(rt; "text: longer than its buffer");
        return ExitCode::FAILURE;
    }
    if let Err(e) = to.write_all(&out[..n]) {
        let _ = eprintln!(rt; "write: {e}");
        return ExitCode::FAILURE;
    }
    ExitCode::SUCCESS
}

#[cfg(test)]
mod tests {
    use super::*;
    use std::io::ErrorKind;
    use std::test::Fail;

    // A file that gives a byte at a time, and fails after so many.
    #[derive(Drop)]
    struct Torn {
        left: usize,
    }

    impl Read for Torn {
        fn read(&mut self, buf: &mut [u8]) -> io::Result<usize> {
            if self.left == 0 {
                return Err(io::Error::from(ErrorKind::Other));
            }
            if buf.is_empty() {
                return Ok(0);
            }
            self.left -= 1;
            buf[0] = b'x';
            Ok(1)
        }
    }

    #[test]
    fn a_file_is_read_as_far_as_the_buffer_goes(rt: HostRuntime) -> Result<(), Fail> {
        let mut buffer = [0u8; 4];
        assert_eq!(rt; read(Some(b"abc".as_slice()), &mut buffer), 3);
        assert_eq!(rt; buffer, *b"abc\0");
        assert_eq!(rt; read(Some(b"defghi".as_slice()), &mut buffer), 4);
        assert_eq!(rt; buffer, *b"defg");
        assert_eq!(rt; read(Some(b"".as_slice()), &mut buffer), 0);
        Ok(())
    }

    #[test]
    fn a_file_that_fails_on_the_way_counts_as_empty(rt: HostRuntime) -> Result<(), Fail> {
        let mut buffer = [0u8; 4];
        assert_eq!(rt; read(Some(Torn { left: 3 }), &mut buffer), 0);
        assert_eq!(rt; read(Some(Torn { left: 4 }), &mut buffer), 4);
        Ok(())
    }

    #[test]
    fn a_text_is_shown_whole_or_the_status_tells(rt: HostRuntime) -> Result<(), Fail> {
        let mut room = [0u8; 3];
        let mut to = room.as_mut_slice();
        assert_eq!(rt; show(&rt, &mut to, b"abcd", 2), ExitCode::SUCCESS);
        assert_eq!(rt; show(&rt, &mut to, b"abcd", 2), ExitCode::FAILURE);
        assert_eq!(rt; room, *b"aba");
        Ok(())
    }
}
