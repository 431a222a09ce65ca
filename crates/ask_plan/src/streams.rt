// Requests on the three streams. Each is answered by the number, the steps and the whole buffer.
use ask::{Answer, Fields, Wrong};

pub(crate) fn update(fields: &mut Fields, out: &mut Answer) -> Result<(), Wrong> {
    let d = fields.device()?;
    let image = fields.words()?;
    let reading = fields.words()?;
    let stream = fields.bytes()?;
    fields.end()?;
    out.told(plan::update(d, image, reading, stream))?;
    out.bytes(stream)
}

pub(crate) fn fresh(fields: &mut Fields, out: &mut Answer) -> Result<(), Wrong> {
    let d = fields.device()?;
    let image = fields.words()?;
    let id = fields.number()?;
    let stream = fields.bytes()?;
    fields.end()?;
    out.told(plan::fresh(d, image, id, stream))?;
    out.bytes(stream)
}

pub(crate) fn read_back(fields: &mut Fields, out: &mut Answer) -> Result<(), Wrong> {
    let d = fields.device()?;
    let stream = fields.bytes()?;
    fields.end()?;
    out.told(plan::read_back(d, stream))?;
    out.bytes(stream)
}
