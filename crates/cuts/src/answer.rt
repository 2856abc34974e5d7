// The answer of a job of one row or of many that is accepted.
ghost use Rattle.std.specs.Prelude.{◌≡◌, length};
ghost use Rattle.jobs.specs.Job.{fields_in, judge_parts};
ghost use Rattle.cuts.specs.Cut.{CutFinished};

use crate::{CutAnswer, rows};
use fields::{MOST_ROWS, MOST_SIZES};
use jobs::kind::JobKind;
use jobs::read::ReadJob;

// The images, the scales and the answer of an accepted job. It is C's answer with number 0: a struct of the same
// numbers without it would be no plainer. A floor job never comes here, by 16, so what is not many rows is one. The
// caller has the arrays from `first_chunk_mut`, and learns by the last clause alone that their lengths stay.
pub(crate) fn finish(
    job: ReadJob<'_>,
    images: &mut [u32; MOST_SIZES],
    scales: &mut [u32; MOST_ROWS],
) -> CutAnswer
    requires { (judge_parts (fields_in job.bytes.now)).number ≡ 0 }
    ensures finished { CutFinished (fields_in job.entry.bytes.now) images.old scales.old
        result images.new scales.new }
    ensures lengths { (length images.new ≡ length images.old) × (length scales.new ≡ length scales.old) }
{
    let parts = job.parts;
    match job.kind {
        JobKind::Rows => {
            rows::write_rows(job, images, scales);
            CutAnswer {
                n: parts.coefficients as u64,
                ..CutAnswer::default()
            }
        }
        JobKind::Floor | JobKind::Cut => {
            let n = parts.sizes.len() / 4;
            let images = &mut images[..n];
            let scale = chains::apply::map_list(parts.steps, parts.capacity, parts.sizes, images);
            CutAnswer {
                n: n as u64,
                scale,
                ..CutAnswer::default()
            }
        }
    }
}
