// The floor operation for C.
#![tactic(auto)]

ghost use Rattle.jobs.specs.declared.kind.Operation.TheVariants.{Floors};
ghost use Rattle.jobs.specs.Job.{fields_in, places_of, judge_job};
ghost use Rattle.floors.specs.Floor.{FloorAnswered};

use floors::FloorAnswer;

#[unsafe(no_mangle)]
pub extern "C" fn windowfloor_floor(
    job: &[u8],
    images: &mut [u32],
    working: &mut [u64],
    list: &mut [u32],
    blocks: &mut [u32],
) -> FloorAnswer
    ensures { FloorAnswered (fields_in job.now)
        (judge_job Floors job.now (places_of images.old working.old list.old blocks.old))
        images.old working.old list.old blocks.old result
        images.new working.new list.new blocks.new }
{
    floors::windowfloor_floor(job, images, working, list, blocks)
}
