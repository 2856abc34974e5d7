// The floor operation: a chain of steps over a list of sizes, and its lower bound on bins, of the whole list and of
// each block.
#![tactic(auto)]

mod answer;

ghost use Rattle.std.specs.Prelude.{◌≡◌};
ghost use Rattle.refusals.specs.Number.{number_of};
ghost use Rattle.chains.specs.Judge.{place_of};
ghost use Rattle.jobs.specs.declared.kind.Operation.TheVariants.{Floors};
ghost use Rattle.jobs.specs.Job.{fields_in, places_of, judge_job};
ghost use Rattle.floors.specs.Floor.{FloorAnswered};

use chains::Refused;
use jobs::judge::judge_job;
use jobs::kind::Operation;

// The answer to a floor job, as C reads it: the number that refuses it, or 0 with the number of sizes, the lower bound
// on bins, the sum of images and the scale; the place of a refused step, and the length of the list; the row, which is
// always 0, since a floor job has none; the total of the blocks' lower bounds.
#[repr(C)]
#[derive(Clone, Copy, Default)]
pub struct FloorAnswer {
    pub number: u64,
    pub n: u64,
    pub floor: u64,
    pub sum: u64,
    pub scale: u64,
    pub step: u64,
    pub length: u64,
    pub row: u64,
    pub total: u64,
}

impl From<Refused> for FloorAnswer {
    ghost from_gives = { λ refused answer. answer ≡ record {
      number = number_of refused.refusal;
      n = 0;
      floor = 0;
      sum = 0;
      scale = 0;
      step = place_of refused.step;
      length = refused.length;
      row = 0;
      total = 0;
    } };

    fn from(refused: Refused) -> FloorAnswer {
        FloorAnswer {
            number: u64::from(refused.refusal),
            step: refused.step.unwrap_or(0),
            length: refused.length,
            ..FloorAnswer::default()
        }
    }
}

// The floor operation: a job is judged whole before any image is written. Refusal 7 asks for MOST_SIZES places of
// `images`, as many of `working` as the longest table has entries, one less of `list`, and MOST_BLOCKS of `blocks`.
pub fn windowfloor_floor(
    job: &[u8],
    images: &mut [u32],
    working: &mut [u64],
    list: &mut [u32],
    blocks: &mut [u32],
) -> FloorAnswer
    ensures { FloorAnswered (fields_in job.now)
        (judge_job Floors job.now (places_of images.old working.old list.old blocks.old))
        images.old working.old list.old blocks.old result
        images.new working.new list.new blocks.new }
{
    match judge_job(Operation::Floors, job, images, working, list, blocks) {
        Ok(read) => {
            // Neither buffer is shorter, by 7: the arrays' types keep that.
            let images = images.first_chunk_mut().unwrap();
            let blocks = blocks.first_chunk_mut().unwrap();
            answer::finish(read, images, blocks)
        }
        Err(refused) => FloorAnswer::from(refused),
    }
}
