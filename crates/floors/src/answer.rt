// The answer of a floor job that is accepted.
ghost use Rattle.std.specs.Prelude.{◌≡◌, length};
ghost use Rattle.jobs.specs.Job.{fields_in, written};
ghost use Rattle.floors.specs.Floor.{
  job_block_floors,
  accepted_floor,
  FloorAccepted,
  FloorReady,
  FloorFinished,
};

use crate::FloorAnswer;
use fields::{MOST_BLOCKS, MOST_SIZES};
use jobs::read::ReadJob;

// The answer, from the images and their scale. The floor of each block goes into `floors`. Without blocks the total is
// the floor of the whole list. It is C's answer with number 0: a struct of the same numbers without it would be no
// plainer.
fn accepted_floor(
    job: ReadJob<'_>,
    scale: u64,
    images: &[u32],
    floors: &mut [u32; MOST_BLOCKS],
) -> FloorAnswer
    requires { FloorReady (fields_in job.bytes.now) job.parts scale images.now }
    ensures { (result ≡ accepted_floor (fields_in job.entry.bytes.now))
        × (floors.new ≡ written (job_block_floors (fields_in job.entry.bytes.now)) floors.old) }
{
    let counts = job.parts.counts;
    let (sum, total) = match job.parts.blocks {
        Some(numbers) => {
            let sums = blocks::write_floors(counts, numbers, images, scale, &mut floors[..]);
            (sums.sum, Some(sums.total))
        }
        None => (chains::list::sum_of(counts, images), None),
    };
    let floor = functions::round_up(sum, scale);
    FloorAnswer {
        n: images.len() as u64,
        floor,
        sum,
        scale,
        total: total.unwrap_or(floor),
        ..FloorAnswer::default()
    }
}

// The images, the block floors and the answer. The caller has the arrays from `first_chunk_mut`, and learns by the
// last clause alone that their lengths stay. Not inlined, it starts at a cache line like every function of the archive,
// and its loops do not move with what judges a job.
#[inline(never)]
pub(crate) fn finish(
    job: ReadJob<'_>,
    images: &mut [u32; MOST_SIZES],
    floors: &mut [u32; MOST_BLOCKS],
) -> FloorAnswer
    requires { FloorAccepted (fields_in job.bytes.now) }
    ensures finished { FloorFinished (fields_in job.entry.bytes.now) images.old floors.old
        result images.new floors.new }
    ensures lengths { (length images.new ≡ length images.old) × (length floors.new ≡ length floors.old) }
{
    let parts = job.parts;
    let images = &mut images[..parts.sizes.len() / 4];
    let scale = chains::apply::map_list(parts.steps, parts.capacity, parts.sizes, images);
    accepted_floor(job, scale, images, floors)
}
