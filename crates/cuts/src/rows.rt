// The rows of a job written one behind the other.
ghost use Rattle.std.specs.Prelude.{◌≡◌, ◌++◌, map, ◌%◌, ◌≤◌, ◌<◌, ◌^◌, length, drop};
ghost use Rattle.fields.specs.Parts.{job_steps, job_rows, coefficient_count};
ghost use Rattle.fields.specs.Grammar.{most_sizes, most_rows};
ghost use Rattle.fields.specs.Record.{steps_in, row_in};
ghost use Rattle.jobs.specs.Job.{fields_in};
ghost use Rattle.jobs.specs.JudgeRows.{judge_row, judge_rows};
ghost use Rattle.cuts.specs.Cut.{row_images, row_scale, rows_images};

use fields::{JobRow, JobSteps, MOST_ROWS, MOST_SIZES};
use jobs::read::ReadJob;

// The images of a row in the first places of what is left of the image buffer, and its scale.
fn write_row(steps: JobSteps<'_>, row: JobRow<'_>, images: &mut [u32]) -> u64
    requires { (length row.coefficients.now % 4 ≡ 0)
        × ((judge_row (steps_in steps) (row_in row)).number ≡ 0)
        × (length (row_in row).coefficients ≤ length images.old) }
    ensures { (result ≡ row_scale (steps_in steps.entry) (row_in row.entry)) × (result < 2 ^ 32)
        × (images.new ≡ row_images (steps_in steps.entry) (row_in row.entry)
        ++ drop (length (row_in row.entry).coefficients) images.old) }
{
    let n = row.coefficients.len() / 4;
    chains::apply::map_list(steps, row.capacity, row.coefficients, &mut images[..n])
}

// The images of all rows, each behind those of the row before, and their scales. The images go by place, since
// of a slice that gets shorter from turn to turn no proof says what was written before it. The scales go by
// place too: a must-fail edit writes one at the place of the images, which a loop over the scales cannot do.
pub(crate) fn write_rows(
    job: ReadJob<'_>,
    images: &mut [u32; MOST_SIZES],
    scales: &mut [u32; MOST_ROWS],
)
    requires { (job.parts.rows ≤ most_rows) × (job.parts.coefficients ≤ most_sizes)
        × ((judge_rows 0 (job_steps (fields_in job.bytes.now))
        (job_rows (fields_in job.bytes.now))).number
        ≡ 0) }
    ensures images { images.new
        ≡ rows_images (job_steps (fields_in job.entry.bytes.now))
        (job_rows (fields_in job.entry.bytes.now))
        ++ drop (coefficient_count (job_rows (fields_in job.entry.bytes.now))) images.old }
    ensures scales { scales.new
        ≡ map (row_scale (job_steps (fields_in job.entry.bytes.now)))
        (job_rows (fields_in job.entry.bytes.now))
        ++ drop (length (job_rows (fields_in job.entry.bytes.now))) scales.old }
{
    let mut rest = job.bytes;
    let mut place = 0;
    for k in 0..job.parts.rows {
        let row = fields::rows::next_row(rest);
        scales[k] = write_row(job.parts.steps, row, &mut images[place..]) as u32;
        place += row.coefficients.len() / 4;
        rest = row.rest;
    }
}
