// Requests on checksums and verdicts.
use ask::{Answer, Fields, Wrong};
use judge::Verdict;
use words::WordAddress;

pub(crate) fn checksum(fields: &mut Fields, out: &mut Answer) -> Result<(), Wrong> {
    let d = fields.device()?;
    let reading = fields.words()?;
    fields.end()?;
    out.told(judge::checksum(d, reading))
}

pub(crate) fn verify(fields: &mut Fields, out: &mut Answer) -> Result<(), Wrong> {
    let d = fields.device()?;
    let wanted = fields.words()?;
    let reading = fields.words()?;
    fields.end()?;
    let (number, address, count) = match judge::verify(d, wanted, reading) {
        Ok(Verdict::Same) => (0, WordAddress(0), 0),
        Ok(Verdict::Differs { address, count }) => (40, address, count),
        Ok(Verdict::Protected) => (41, WordAddress(0), 0),
        Err(refusal) => (refusal.number(), WordAddress(0), 0),
    };
    out.number(number)?;
    out.number(address.0)?;
    out.number(count)
}
