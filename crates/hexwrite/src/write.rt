// Writing an image as HEX text.
ghost use Rattle.std.specs.Prelude.{◌≡◌, ◌+◌, ◌≤◌, length};
ghost use Rattle.std.proofs.lemmas.List.Edits.{sets};
ghost use Rattle.device.specs.Memory.{reading_tail};
ghost use Rattle.hexwrite.specs.Writer.{record_text, end_bytes, text_from, hex_text, written_told, WroteHex};
ghost use Rattle.hexwrite.specs.LawsWriter.{Puts};

use crate::image::Image;
use crate::run::EMPTY;
use crate::writer::Writer;
use device::Device;
use refusal::Refusal;

// Writes the given words of an image and answers the text's length, or 13, 20 or 26 and writes nothing.
pub fn write_hex(d: Device, image: &[u16], out: &mut [u8]) -> Result<usize, Refusal>
    ensures { WroteHex d image.now out.old (written_told result) out.new }
{
    let image = Image::of(d, image)?;
    let length = image.text_length();
    if out.len() < length {
        return Err(Refusal::NoRoom);
    }
    put_text(out, &image);
    Ok(length)
}

// Puts the whole text, which fits.
fn put_text(out: &mut [u8], image: &Image)
    requires { length (hex_text image.now.words image.now.entries.now) ≤ length out.old }
    ensures { out.new ≡ sets out.old 0 (hex_text image.now.words image.now.entries.now) }
{
    let mut writer = Writer::new(out);
    writer.put_entries(image);
    writer.put_end();
}

impl<'a> Image<'a> {
    // The length of the text of the given words and the end record.
    fn text_length(&self) -> usize
        ensures { result ≡ length (hex_text self.now.words self.now.entries.now) }
    {
        let mut total = EMPTY;
        let mut upper: u16 = 0;
        let mut at = 0;
        while let Some(run) = self.next_run(at) {
            total += run.length(upper);
            upper = run.upper();
            at = run.stop;
        }
        total
    }
}

impl<'a> Writer<'a> {
    // Puts the records of all runs, one run after the other.
    fn put_entries(&mut self, image: &Image)
        requires { self.old.at + length (text_from image.now.words image.now.entries.now (image.now.words + reading_tail) 0 0 0) ≤ length self.old.out.now }
        ensures { Puts (text_from image.now.words image.now.entries.now (image.now.words + reading_tail) 0 0 0) self.old self.new }
    {
        let mut upper: u16 = 0;
        let mut at = 0;
        while let Some(run) = image.next_run(at) {
            self.put_run(run, upper);
            upper = run.upper();
            at = run.stop;
        }
    }

    // Puts the end record.
    fn put_end(&mut self)
        requires { self.old.at + 12 ≤ length self.old.out.now }
        ensures { Puts (record_text end_bytes) self.old self.new }
    {
        self.put_head(0, 0, 0, 1);
        self.put_sum(1);
    }
}
