// The program readback.
ghost use Rattle.std.specs.Prelude.{◌≡◌, true, ◌≤◌};
ghost use Rattle.device.specs.Record.{device_up_to};
ghost use Rattle.target.specs.Stream.{bytes_of};
ghost use Rattle.plan.specs.Steps.{read_back_steps};
ghost use Rattle.print.specs.Print.{Prints};
ghost use Rattle.board.specs.Open.{most_program};
ghost use Rattle.listings.specs.Streams.{stream_text, readback_text};

use crate::streams;
use crate::streams::MOST_STREAM;
use device::Device;

// Prints the stream that reads a whole board as far as there is room, and answers the length of the whole text.
pub fn readback(table: &[u8], sheet: &[u8], out: &mut [u8]) -> usize
    ensures { (Prints (readback_text table.now sheet.now) out.old result out.new) × (result ≤ 147632) }
{
    match board::open_record(table, sheet) {
        Ok(found) => put_read_back(found.device, out),
        Err(unopened) => print::refusal(out, unopened.refusal.number(), 0, 0),
    }
}

// Prints the stream that reads a board that the programs serve.
fn put_read_back(d: Device, out: &mut [u8]) -> usize
    requires { device_up_to most_program d ≡ true }
    ensures { Prints (stream_text (bytes_of (read_back_steps d))) out.old result out.new }
{
    let mut stream = [0u8; MOST_STREAM];
    match plan::read_back(d, &mut stream) {
        Ok(steps) => streams::put_stream(out, &stream[..3 * steps]),
        Err(refusal) => print::refusal(out, refusal.number(), 0, 0),
    }
}
