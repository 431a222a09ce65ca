// The reader of lines, asked with a plain text.
ghost use Rattle.std.specs.Prelude.{◌≡◌};
ghost use Rattle.lines.specs.Lines.{next_line};
ghost use Rattle.lent.specs.Text.{line_taken};

use lines::{Lines, NextLine};

// The number of a text's first line, by a reader that begins there: 0 where there is none.
pub fn first_number(text: &[u8]) -> u32
    ensures { result ≡ (next_line text.now 0 0).line }
{
    let mut lines = Lines::new(text);
    lines.take();
    lines.number()
}

// The third line of a text, by a reader that takes one line after another from its beginning; past the last line as `take` answers it.
pub fn third_line(text: &[u8]) -> NextLine
    ensures { result ≡ line_taken text.now 2 }
{
    let mut lines = Lines::new(text);
    lines.take();
    lines.take();
    lines.take()
}
