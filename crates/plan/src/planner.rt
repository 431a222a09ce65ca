// The public calls: a stream is judged, counted by arithmetic, and only then written, into a buffer that is known to take it.
ghost use Rattle.std.specs.Prelude.{◌+◌, ◌*◌};
ghost use Rattle.device.specs.LawsRecord.{Rules};
ghost use Rattle.plan.specs.Steps.{update_steps, fresh_steps, read_back_steps};
ghost use Rattle.aim.specs.Refusal.{update_number, fresh_number};
ghost use Rattle.plan.specs.Answers.{read_back_number, planned_told, Plans};
ghost use Rattle.plan.specs.LawsPlanSteps.{plan_body};
ghost use Rattle.plan.specs.LawsPlanWrote.{Wrote, Room};

use crate::orders::Writer;
use crate::task::Task;
use aim::Aim;
use device::Device;
use refusal::Refusal;
use target::Order;
use words::ERASED;

// The stream that makes a board that holds the reading hold what is wanted: 13, 20 to 24 or 26, or its steps.
pub fn update(d: Device, image: &[u16], reading: &[u16], out: &mut [u8]) -> Result<usize, Refusal>
    ensures { Plans (update_number d image.now reading.now) (update_steps d image.now reading.now) out.old (planned_told result) out.new }
{
    let aim = Aim {
        device: d,
        image,
        reading,
    };
    aim.update_refusal()?;
    let rise = aim.id_rises();
    let ids = aim.id_differs();
    let task = Task {
        aim,
        erases: true,
        erase_ids: rise,
        all_ids: ids,
    };
    if out.len() < 3 * (1 + task.length()) {
        return Err(Refusal::NoRoom);
    }
    let mut w = Writer { out, steps: 0 };
    w.put(Order::ResetAddress);
    task.put(&mut w);
    Ok(w.steps)
}

// The stream that programs any board from nothing: 13, 20, 22 or 26, or its steps. The empty part of the image stands for the reading that there is not.
pub fn fresh(d: Device, image: &[u16], id_word: u16, out: &mut [u8]) -> Result<usize, Refusal>
    ensures { Plans (fresh_number d image.now id_word) (fresh_steps d image.now) out.old (planned_told result) out.new }
{
    aim::fresh_refusal(d, image, id_word)?;
    let task = Task {
        aim: Aim {
            device: d,
            image,
            reading: &image[..0],
        },
        erases: false,
        erase_ids: false,
        all_ids: false,
    };
    if out.len() < 3 * (3 + task.length()) {
        return Err(Refusal::NoRoom);
    }
    let mut w = Writer { out, steps: 0 };
    w.put(Order::LoadConfiguration(ERASED));
    w.put(Order::BulkErase);
    w.put(Order::ResetAddress);
    task.put(&mut w);
    Ok(w.steps)
}

// The stream that reads a whole board: 13 or 26, or its steps, a Read and an Increment for nearly every word.
pub fn read_back(d: Device, out: &mut [u8]) -> Result<usize, Refusal>
    ensures { Plans (read_back_number d) (read_back_steps d) out.old (planned_told result) out.new }
{
    device::judge(d)?;
    if out.len() < 3 * (2 * (d.words as usize) + 18) {
        return Err(Refusal::NoRoom);
    }
    let mut w = Writer { out, steps: 0 };
    w.put(Order::ResetAddress);
    w.reads(d.words as usize);
    w.put(Order::LoadConfiguration(ERASED));
    w.reads(9);
    Ok(w.steps)
}

impl Task<'_> {
    // What both streams do after their first steps: rows, and then configuration space.
    fn put(&self, w: &mut Writer)
        requires { Room (plan_body self.now.aim.device self.now.aim.image.now self.now.aim.reading.now self.now.erases self.now.erase_ids self.now.all_ids) w.old }
        ensures { Wrote (plan_body self.now.aim.device self.now.aim.image.now self.now.aim.reading.now self.now.erases self.now.erase_ids self.now.all_ids) w.old w.new }
    {
        self.put_rows(w);
        self.put_config(w);
    }
}
