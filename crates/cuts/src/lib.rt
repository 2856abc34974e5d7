// The cut operation: a chain of steps over a row or over many rows, and the cut of each.
#![tactic(auto)]

mod answer;
mod rows;

ghost use Rattle.std.specs.Prelude.{◌≡◌};
ghost use Rattle.refusals.specs.Number.{number_of};
ghost use Rattle.chains.specs.Judge.{place_of};
ghost use Rattle.jobs.specs.declared.kind.Operation.TheVariants.{Cuts};
ghost use Rattle.jobs.specs.Job.{fields_in, places_of, judge_job};
ghost use Rattle.cuts.specs.Cut.{CutAnswered};

use chains::Refused;
use jobs::judge::judge_job;
use jobs::kind::Operation;

// The answer to a job of one row or of many, as C reads it: the number that refuses it, or 0 with the number of
// coefficients and, of one row, the scale; the place of a refused step, the length of the list, and the place of a
// refused row.
#[repr(C)]
#[derive(Clone, Copy, Default)]
pub struct CutAnswer {
    pub number: u64,
    pub n: u64,
    pub scale: u64,
    pub step: u64,
    pub length: u64,
    pub row: u64,
}

impl From<Refused> for CutAnswer {
    ghost from_gives = { λ refused answer. answer ≡ record {
      number = number_of refused.refusal;
      n = 0;
      scale = 0;
      step = place_of refused.step;
      length = refused.length;
      row = place_of refused.row;
    } };

    fn from(refused: Refused) -> CutAnswer {
        CutAnswer {
            number: u64::from(refused.refusal),
            step: refused.step.unwrap_or(0),
            length: refused.length,
            row: refused.row.unwrap_or(0),
            ..CutAnswer::default()
        }
    }
}

// The cut operation: a job is judged whole before any image is written. Refusal 7 asks for MOST_SIZES places of
// `images`, as many of `working` as the longest table has entries, one less of `list`, and MOST_ROWS of `scales`.
pub fn windowfloor_cut(
    job: &[u8],
    images: &mut [u32],
    working: &mut [u64],
    list: &mut [u32],
    scales: &mut [u32],
) -> CutAnswer
    ensures { CutAnswered (fields_in job.now)
        (judge_job Cuts job.now (places_of images.old working.old list.old scales.old))
        images.old working.old list.old scales.old result
        images.new working.new list.new scales.new }
{
    match judge_job(Operation::Cuts, job, images, working, list, scales) {
        Ok(read) => {
            // Neither buffer is shorter, by 7: the arrays' types keep that.
            let images = images.first_chunk_mut().unwrap();
            let scales = scales.first_chunk_mut().unwrap();
            answer::finish(read, images, scales)
        }
        Err(refused) => CutAnswer::from(refused),
    }
}
