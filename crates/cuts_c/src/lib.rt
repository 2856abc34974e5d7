// The cut operation for C.
#![tactic(auto)]

ghost use Rattle.jobs.specs.declared.kind.Operation.TheVariants.{Cuts};
ghost use Rattle.jobs.specs.Job.{fields_in, places_of, judge_job};
ghost use Rattle.cuts.specs.Cut.{CutAnswered};

use cuts::CutAnswer;

#[unsafe(no_mangle)]
pub extern "C" fn windowfloor_cut(
    job: &[u8],
    images: &mut [u32],
    working: &mut [u64],
    list: &mut [u32],
    scales: &mut [u32],
) -> CutAnswer
    ensures { CutAnswered (fields_in job.now)
        (judge_job Cuts job.now (places_of images.old working.old list.old scales.old))
        images.old working.old list.old scales.old result
        images.new working.new list.new scales.new }
{
    cuts::windowfloor_cut(job, images, working, list, scales)
}
