// A job read and judged, whole, before anything is written.
ghost use Rattle.std.specs.Prelude.{◌≡◌, IfOk, length};
ghost use Rattle.refusals.specs.Number.{number_in};
ghost use Rattle.chains.specs.Judge.{Judged};
ghost use Rattle.jobs.specs.Job.{
  fields_in,
  blocks_right,
  judge_parts,
  judge_job,
  places_of,
  buffer_refusal,
};

use crate::kind::{JobKind, Operation};
use crate::read::ReadJob;
use crate::rows;
use chains::{LIST_PLACES, Refused, SizeList};
use fields::MOST_SIZES;
use refusals::Refusal;
use tables::MOST_ENTRIES;

// Refusals 12 and 7.
#[tactic(auto, unfolding(crate::specs::Job::buffer_refusal))]
fn refuse_buffers(
    operation: Operation,
    job: &[u8],
    images: &[u32],
    working: &[u64],
    list: &[u32],
    own: &[u32],
) -> Result<(), Refusal>
    ensures { number_in result ≡ buffer_refusal operation (length job.now)
        (places_of images.now working.now list.now own.now) }
{
    if fields::MOST_BYTES < job.len() {
        return Err(Refusal::JobTooLong);
    }
    let short = images.len() < MOST_SIZES
        || working.len() < MOST_ENTRIES
        || list.len() < LIST_PLACES
        || own.len() < operation.places();
    if short {
        return Err(Refusal::BufferTooShort);
    }
    Ok(())
}

// Whether the blocks of a floor job divide its list; true where it has none.
fn blocks_right(job: ReadJob<'_>) -> bool
    ensures { result ≡ blocks_right (fields_in job.entry.bytes.now) }
{
    match (job.kind, job.parts.blocks) {
        (JobKind::Floor, Some(numbers)) => blocks::blocks_fit(numbers, job.parts.sizes.len() / 4),
        _ => true,
    }
}

// The job judged by its parts: its list or its rows. The caller has the arrays from `first_chunk_mut`, and learns by
// the last clause alone that the length of `list` stays.
fn judge_parts(
    job: ReadJob<'_>,
    working: &mut [u64; MOST_ENTRIES],
    list: &mut [u32; LIST_PLACES],
) -> Result<(), Refused>
    ensures judged { Judged (judge_parts (fields_in job.entry.bytes.now)) list.old result list.new }
    ensures length { length list.new ≡ length list.old }
{
    match job.kind {
        JobKind::Rows => rows::judge_all(job, working, list),
        JobKind::Floor | JobKind::Cut => {
            let size_list = SizeList {
                capacity: job.parts.capacity,
                least: job.kind.least(),
                sizes: job.parts.sizes,
                counts: job.parts.counts,
                divided: blocks_right(job),
            };
            chains::judge::judge_list(job.parts.steps, false, size_list, working, list)
        }
    }
}

// The buffers, the fields with the kind, and then the parts of a job, in the order of the refusals. `own` is the
// operation's own buffer. An accepted job comes back read.
pub fn judge_job<'a>(
    operation: Operation,
    job: &'a [u8],
    images: &[u32],
    working: &mut [u64],
    list: &mut [u32],
    own: &[u32],
) -> Result<ReadJob<'a>, Refused>
    ensures judged { Judged (judge_job operation job.now
        (places_of images.now working.old list.old own.now))
        list.old result list.new }
    ensures read { IfOk result (λ read. read.bytes.now ≡ job.now) }
    ensures working { length working.new ≡ length working.old }
{
    refuse_buffers(operation, job, images, working, list, own)?;
    let read = ReadJob::read(operation, job)?;
    // Neither buffer is shorter, by 7: the arrays' types keep that.
    let working = working.first_chunk_mut().unwrap();
    let list = list.first_chunk_mut().unwrap();
    judge_parts(read, working, list)?;
    Ok(read)
}
