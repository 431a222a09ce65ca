// Requests on what the programs print.
#![tactic(auto)]

use ask::{Answer, Fields, Wrong};

// Puts the answer to a request on a program's text.
pub fn answer(name: &[u8], fields: &mut Fields, out: &mut Answer) -> Result<(), Wrong> {
    match name {
        b"bench.checksum" => of_two(fields, out, |t, s, o| reports::checksum(t, s, o)),
        b"bench.readback" => of_two(fields, out, |t, s, o| listings::readback(t, s, o)),
        b"bench.dump" => of_two(fields, out, |t, s, o| reports::dump(t, s, o)),
        b"bench.newsheet" => of_two(fields, out, |t, s, o| moves::newsheet(t, s, o)),
        b"bench.oldsheet" => of_two(fields, out, |t, s, o| moves::oldsheet(t, s, o)),
        b"bench.verify" => of_three(fields, out, |t, s, w, o| reports::verify(t, s, w, o)),
        b"bench.update" => of_three(fields, out, |t, s, h, o| listings::update(t, s, h, o)),
        b"bench.fresh" => of_three(fields, out, |t, s, h, o| listings::fresh(t, s, h, o)),
        b"bench.wanted" => of_three(fields, out, |t, s, h, o| listings::wanted(t, s, h, o)),
        b"bench.wanted_fresh" => {
            of_three(fields, out, |t, s, h, o| listings::wanted_fresh(t, s, h, o))
        }
        b"bench.trial" => of_three(fields, out, |t, s, p, o| trials::trial(t, s, p, o)),
        b"bench.gather" => of_three(fields, out, |t, s, w, o| gathers::gather(t, s, w, o)),
        _ => Err(Wrong::UnknownName),
    }
}

// The text that a program prints of a table and a sheet: its length, and the lent buffer.
// Apart from `of_three`, since one function over an array of files did not prove: no `Fn` bound may name its length.
fn of_two<P: Fn(&[u8], &[u8], &mut [u8]) -> usize>(
    fields: &mut Fields,
    out: &mut Answer,
    print: P,
) -> Result<(), Wrong>
    requires { P.IsAlwaysCallable print }
{
    let table = fields.bytes()?;
    let sheet = fields.bytes()?;
    let text = fields.bytes()?;
    fields.end()?;
    out.number(print(table, sheet, text))?;
    out.bytes(text)
}

// The text that a program prints of a table, a sheet and a third file, likewise.
fn of_three<P: Fn(&[u8], &[u8], &[u8], &mut [u8]) -> usize>(
    fields: &mut Fields,
    out: &mut Answer,
    print: P,
) -> Result<(), Wrong>
    requires { P.IsAlwaysCallable print }
{
    let table = fields.bytes()?;
    let sheet = fields.bytes()?;
    let third = fields.bytes()?;
    let text = fields.bytes()?;
    fields.end()?;
    out.number(print(table, sheet, third, text))?;
    out.bytes(text)
}
