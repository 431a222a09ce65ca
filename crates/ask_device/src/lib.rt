// Requests on devices, on readings judged under them, and on board sheets.
#![tactic(auto)]

mod readings;
mod records;
mod sheets;

use ask::{Answer, Fields, Wrong};

// Puts the answer to a request of the crates device, judge and sheet.
pub fn answer(name: &[u8], fields: &mut Fields, out: &mut Answer) -> Result<(), Wrong> {
    match name {
        b"device.judge" => records::judge(fields, out),
        b"device.judge_table" => records::judge_table(fields, out),
        b"device.find_device" => records::find_device(fields, out),
        b"device.is_image" => records::is_so(fields, out, |n, w| device::is_image(n, w)),
        b"device.is_reading" => records::is_so(fields, out, |n, w| device::is_reading(n, w)),
        b"device.is_protected" => records::is_so(fields, out, |n, w| device::is_protected(n, w)),
        b"device.programmable" => records::programmable(fields, out),
        b"device.fits" => records::fits(fields, out),
        b"device.under_mask" => records::under_mask(fields, out),
        b"device.is_name" => records::is_name(fields, out),
        b"device.sound_of" => records::sound_of(fields, out),
        b"device.name_of" => records::name_of(fields, out),
        b"judge.checksum" => readings::checksum(fields, out),
        b"judge.verify" => readings::verify(fields, out),
        b"sheet.read_sheet" => sheets::read_sheet(fields, out),
        b"sheet.read_id" => sheets::read_id(fields, out),
        b"sheet.write_sheet" => sheets::write_sheet(fields, out),
        b"sheet.write_new_sheet" => sheets::write_new_sheet(fields, out),
        b"sheet.to_new" => sheets::move_sheet(fields, out, |t, s, o| moves::to_new(t, s, o)),
        b"sheet.to_old" => sheets::move_sheet(fields, out, |t, s, o| moves::to_old(t, s, o)),
        _ => Err(Wrong::UnknownName),
    }
}
