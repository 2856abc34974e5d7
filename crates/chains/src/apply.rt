// Accepted steps applied to the images, one after the other, in place.
ghost use Rattle.std.specs.Prelude.{◌≡◌, map, ◌*◌, length};
ghost use Rattle.tables.specs.Table.{entry, table_scale};
ghost use Rattle.fields.specs.Bytes.{words};
ghost use Rattle.fields.specs.Parts.{on_family};
ghost use Rattle.fields.specs.Within.{StepWithin};
ghost use Rattle.fields.specs.Record.{step_in, steps_in};
ghost use Rattle.chains.specs.Apply.{Appliable, Applied, EntriesFor, ChainAppliable, ChainApplied};

use fields::{JobStep, JobSteps, StepFunction};
use functions::FamilyStep;

#[tactic(auto, unfolding(crate::specs::Chain::step_image, crate::specs::Chain::step_scale, crate::specs::Chain::step_refusal))]
fn apply_family(family: u8, p: u64, q: u64, capacity: u64, images: &mut [u32]) -> u64
    requires { Appliable capacity (on_family family p q) images.old }
    ensures { Applied capacity (on_family family p q) images.old result images.new }
{
    let accepted = FamilyStep::accepted(capacity, family, p, q);
    accepted.map(images);
    accepted.scale
}

// Each size becomes its entry, read where it lies.
fn map_entries(entries: &[u8], images: &mut [u32])
    requires { EntriesFor entries.now images.old }
    ensures { images.new ≡ map (entry (words entries.now)) images.old }
{
    let (numbers, _) = entries.as_chunks::<4>();
    for image in images.iter_mut() {
        *image = u32::from_be_bytes(numbers[*image as usize]);
    }
}

// The images of the sizes, and the table's last entry.
fn apply_table(entries: &[u8], images: &mut [u32]) -> u64
    requires { EntriesFor entries.now images.old }
    ensures { (result ≡ table_scale (words entries.now))
        × (images.new ≡ map (entry (words entries.now)) images.old) }
{
    map_entries(entries, images);
    fields::words::word_at(entries, entries.len() - 4)
}

fn apply_step(step: JobStep<'_>, capacity: u64, images: &mut [u32]) -> u64
    requires { StepWithin step × Appliable capacity (step_in step) images.old }
    ensures { Applied capacity (step_in step.entry) images.old result images.new }
{
    match step.function {
        StepFunction::Family { family, p, q } => apply_family(family, p, q, capacity, images),
        StepFunction::Table(entries) => apply_table(entries, images),
    }
}

// All steps, one after the other, and the scale that they leave.
fn apply_steps(steps: JobSteps<'_>, capacity: u64, images: &mut [u32]) -> u64
    requires { ChainAppliable capacity (steps_in steps) images.old }
    ensures { ChainApplied capacity (steps_in steps.entry) images.old result images.new }
{
    let mut present = capacity;
    for step in &steps.items[..steps.count] {
        present = apply_step(*step, present, images);
    }
    present
}

// The images of a list of sizes, in as many places, and the scale.
pub fn map_list(steps: JobSteps<'_>, capacity: u64, sizes: &[u8], images: &mut [u32]) -> u64
    requires { ChainAppliable capacity (steps_in steps) (words sizes.now)
        × (length sizes.now ≡ 4 * length images.old) }
    ensures { ChainApplied capacity (steps_in steps.entry) (words sizes.now) result images.new }
{
    fields::words::decode_words(sizes, images);
    apply_steps(steps, capacity, images)
}
