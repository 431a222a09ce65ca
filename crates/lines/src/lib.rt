// The lines of a lent text, taken one after another: a core over slice and cursor, and a reader that holds both. No call here has a `requires`.
#![tactic(auto)]

mod scan;

ghost use Rattle.std.specs.Prelude.{◌≡◌};
ghost use Rattle.lines.specs.Lines.{next_line, at_start, Takes};

use scan::{line_end, line_stop};

// A reader: the text, where its next line begins, and the number of the line taken last (0 before the first).
#[derive(Clone, Copy)]
pub struct Lines<'a> {
    pub text: &'a [u8],
    pub at: usize,
    pub line: u32,
}

// Where a line begins and ends, without the CR that belongs to its end; where the next one begins; and the line's number.
#[derive(Clone, Copy, Debug, PartialEq, Eq)]
pub struct NextLine {
    pub start: usize,
    pub stop: usize,
    pub at: usize,
    pub line: u32,
}

// The line that begins at a place, after the line of this number. Past the last line it is empty, at the text's end, and nothing moves.
pub fn next_line(text: &[u8], at: usize, line: u32) -> NextLine
    ensures { result ≡ next_line text.now at line }
{
    if text.len() <= at {
        return NextLine {
            start: text.len(),
            stop: text.len(),
            at,
            line,
        };
    }
    let end = line_stop(text, at);
    NextLine {
        start: at,
        stop: at + line_end(&text[at..end]),
        at: end + 1,
        line: line.saturating_add(1),
    }
}

// The line that begins at a place of a text, taken by a reader that stands there.
pub fn line_from(text: &[u8], at: usize, line: u32) -> NextLine
    ensures { result ≡ next_line text.now at line }
{
    Lines { text, at, line }.take()
}

impl<'a> Lines<'a> {
    // A reader before the first line of a text.
    pub fn new(text: &'a [u8]) -> Lines<'a>
        ensures { result ≡ at_start text.entry }
    {
        Lines {
            text,
            at: 0,
            line: 0,
        }
    }

    // Takes the next line: the reader moves past it.
    pub fn take(&mut self) -> NextLine
        ensures { Takes self.old result self.new }
    {
        let next = next_line(self.text, self.at, self.line);
        self.at = next.at;
        self.line = next.line;
        next
    }

    // The number of the line taken last, from 1; 0 before the first.
    pub fn number(&self) -> u32
        ensures { result ≡ self.now.line }
    {
        self.line
    }
}
