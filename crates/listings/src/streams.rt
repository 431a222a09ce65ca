// A stream printed, a line a step: code, tab, payload.
ghost use Rattle.std.specs.Prelude.{◌≤◌, length};
ghost use Rattle.print.specs.Print.{Prints};
ghost use Rattle.print.specs.LawsPrint.{Wrote};
ghost use Rattle.listings.specs.Streams.{stream_text};
ghost use Rattle.listings.specs.LawsStreams.{most_stream, step_text};

// The most bytes of a stream: three for each of 2P + 2P/R + 22 steps, where P is the most that the programs serve.
pub(crate) const MOST_STREAM: usize = 55362;

const TAB: u8 = b'\t';

const LF: u8 = b'\n';

// Prints a stream as far as there is room, and answers the length of the whole text.
pub(crate) fn put_stream(out: &mut [u8], stream: &[u8]) -> usize
    requires { length stream.now ≤ most_stream }
    ensures { Prints (stream_text stream.now) out.old result out.new }
{
    let mut at = 0;
    for step in stream.chunks_exact(3) {
        at = put_step(out, at, step[0], step[1], step[2]);
    }
    at
}

// The line of a step: the payload's high byte comes first.
fn put_step(out: &mut [u8], at: usize, code: u8, low: u8, high: u8) -> usize
    requires { at ≤ 900000 }
    ensures { Wrote at (step_text code low high) out.old result out.new }
{
    numerals::hex::put_byte(out, at, code);
    numerals::hex::put(out, at + 2, TAB);
    numerals::hex::put_byte(out, at + 3, high);
    numerals::hex::put_byte(out, at + 5, low);
    numerals::hex::put(out, at + 7, LF);
    at + 8
}
