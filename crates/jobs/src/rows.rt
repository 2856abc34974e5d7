// The rows of a job, judged in order.
ghost use Rattle.std.specs.Prelude.{◌≡◌, cond, not, suc, ◌≤◌, ◌<◌};
ghost use Rattle.fields.specs.Parts.{job_steps, job_rows};
ghost use Rattle.fields.specs.Grammar.{most_rows};
ghost use Rattle.fields.specs.Record.{steps_in, row_in};
ghost use Rattle.chains.specs.Chain.{TablesPass};
ghost use Rattle.chains.specs.Judge.{plain, Judged};
ghost use Rattle.jobs.specs.Job.{fields_in};
ghost use Rattle.jobs.specs.JudgeRows.{judge_row, in_row, judge_rows};
ghost use Rattle.jobs.specs.Kinds.{rows_fit};

use crate::read::ReadJob;
use chains::{LIST_PLACES, Refused, SizeList};
use fields::{JobRow, JobSteps, MOST_ROWS, MOST_SIZES};
use refusals::Refusal;
use tables::MOST_ENTRIES;

// Refusal 21 is that this is false.
#[tactic(auto, unfolding(crate::specs::Kinds::rows_fit))]
fn rows_fit(rows: usize, coefficients: usize) -> bool
    ensures { result ≡ rows_fit rows coefficients }
{
    (1..=MOST_ROWS).contains(&rows) && coefficients <= MOST_SIZES
}

// Row k, counted from 0: the tables were checked where rows are before it.
fn judge_row(
    steps: JobSteps<'_>,
    row: JobRow<'_>,
    k: usize,
    working: &mut [u64; MOST_ENTRIES],
    list: &mut [u32; LIST_PLACES],
) -> Result<(), Refused>
    requires { (0 < k → TablesPass (steps_in steps)) × (k < most_rows) }
    ensures { Judged (in_row (suc k) (judge_row (steps_in steps.entry) (row_in row.entry)))
        list.old result list.new }
{
    let size_list = SizeList {
        capacity: row.capacity,
        least: 0,
        sizes: row.coefficients,
        counts: &[],
        divided: true,
    };
    let checked = 0 < k;
    chains::judge::judge_list(steps, checked, size_list, working, list).map_err(|refused| Refused {
        row: Some((k + 1) as u64),
        ..refused
    })
}

// The rows in order, each in full before the next.
fn judge_rows(
    job: ReadJob<'_>,
    working: &mut [u64; MOST_ENTRIES],
    list: &mut [u32; LIST_PLACES],
) -> Result<(), Refused>
    requires { job.parts.rows ≤ most_rows }
    ensures { Judged (judge_rows 0 (job_steps (fields_in job.entry.bytes.now))
        (job_rows (fields_in job.entry.bytes.now)))
        list.old result list.new }
{
    let mut rest = job.bytes;
    for k in 0..job.parts.rows {
        let row = fields::rows::next_row(rest);
        judge_row(job.parts.steps, row, k, working, list)?;
        rest = row.rest;
    }
    Ok(())
}

// How many rows and coefficients there are, and then each row.
pub(crate) fn judge_all(
    job: ReadJob<'_>,
    working: &mut [u64; MOST_ENTRIES],
    list: &mut [u32; LIST_PLACES],
) -> Result<(), Refused>
    ensures { Judged (cond (not (rows_fit job.entry.parts.rows job.entry.parts.coefficients)) (plain 21)
        (judge_rows 0 (job_steps (fields_in job.entry.bytes.now))
        (job_rows (fields_in job.entry.bytes.now))))
        list.old result list.new }
{
    if !rows_fit(job.parts.rows, job.parts.coefficients) {
        return Err(Refused::from(Refusal::RowCount));
    }
    judge_rows(job, working, list)
}
