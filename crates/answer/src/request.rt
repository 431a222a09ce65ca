// One line: a comment, or a request with its name, its fields and its answer.
use ask::{Answer, Fields, Wrong};

// Puts the answer to a line, with the LF that ends it. A comment is its own answer. The answer to a request begins with the request's own name.
pub(crate) fn answer(
    line: &[u8],
    bytes: &mut [u8],
    words: &mut [u16],
    out: &mut Answer,
) -> Result<(), Wrong> {
    if line.first() == Some(&b'#') {
        out.text(line)?;
    } else {
        let end = line.iter().position(|c| *c == b' ').unwrap_or(line.len());
        let (name, fields) = line.split_at(end);
        out.text(name)?;
        answer_to(name, &mut Fields::new(fields, bytes, words), out)?;
    }
    out.text(&[ask_io::LF])
}

// The answer to a request with this name, by the crate that it begins with.
fn answer_to(name: &[u8], fields: &mut Fields, out: &mut Answer) -> Result<(), Wrong> {
    let end = name.iter().position(|c| *c == b'.').unwrap_or(name.len());
    match &name[..end] {
        b"words" => ask_words::answer(name, fields, out),
        b"device" | b"judge" | b"sheet" => ask_device::answer(name, fields, out),
        b"ihex" => ask_hex::answer(name, fields, out),
        b"target" | b"lent" => ask_target::answer(name, fields, out),
        b"plan" => ask_plan::answer(name, fields, out),
        b"print" | b"board" => ask_board::answer(name, fields, out),
        b"bench" => ask_bench::answer(name, fields, out),
        _ => Err(Wrong::UnknownName),
    }
}
