// The lines of a text: a word, values with one space before each, and the line's end. The kind is read from the job's
// fourth byte, which is the kind of every accepted job.
ghost use Rattle.std.specs.Prelude.{◌≡◌, [], ◌∷◌, ◌++◌, ◌≤◌, length};
ghost use Rattle.tables.specs.Check.{most_entries};
ghost use Rattle.fields.specs.Parts.{job_steps, job_rows};
ghost use Rattle.fields.specs.Reading.{complete, job_fields};
ghost use Rattle.fields.specs.Record.{JobRead};
ghost use Rattle.jobs.specs.Job.{fields_in, is_divided};
ghost use Rattle.floors.specs.Floor.{job_block_floors};
ghost use Rattle.report.specs.Text.{
  values_text,
  line,
  refused_word,
  cut_text,
  rows_text,
  floor_text,
  blocks_text,
  row_values,
  refused_text,
  fourth_byte,
  hand_over_text,
};
ghost use Rattle.report.specs.Put.{Put};
ghost use Rattle.report.specs.Answer.{RowsHeld, BlocksHeld, FloorLeft, CutLeft, TextPut};

use crate::put;
use cuts::CutAnswer;
use floors::FloorAnswer;
use refusals::Refusal;

// The refusal that has a list.
const WITH_LIST: u64 = Refusal::Overshoots as u64;

fn put_number_line(out: &mut [u8], at: usize, word: &[u8], n: u64) -> usize
    requires { at ≤ length out.old }
    ensures { Put out.old at (line word.now (n ∷ [])) out.new result }
{
    let behind = put::put_bytes(out, at, word);
    let end = put::put_value(out, behind, n);
    put::put_byte(out, end, b'\n')
}

fn put_list_line(out: &mut [u8], at: usize, word: &[u8], values: &[u32]) -> usize
    requires { at ≤ length out.old }
    ensures { Put out.old at (line word.now values.now) out.new result }
{
    let behind = put::put_bytes(out, at, word);
    let end = put::put_values(out, behind, values);
    put::put_byte(out, end, b'\n')
}

// A cut: its scale and its images.
fn put_cut(out: &mut [u8], at: usize, scale: u64, images: &[u32]) -> usize
    requires { at ≤ length out.old }
    ensures { Put out.old at (cut_text scale images.now) out.new result }
{
    let next = put_number_line(out, at, b"scale", scale);
    put_list_line(out, next, b"images", images)
}

// A floor and its sum, and the lines of a cut.
fn put_floor(out: &mut [u8], answer: FloorAnswer, images: &[u32]) -> usize
    ensures { Put out.old 0 (floor_text answer images.now) out.new result }
{
    let behind = put_number_line(out, 0, b"floor", answer.floor);
    let next = put_number_line(out, behind, b"sum", answer.sum);
    put_cut(out, next, answer.scale, images)
}

// The parts of an accepted job, read again since its answer does not have them.
fn accepted_parts(job: &[u8]) -> fields::JobParts<'_>
    requires { job_fields job.now ≡ complete (fields_in job.now) }
    ensures { JobRead job.now result }
{
    let Ok(parts) = fields::read_job(job) else {
        unreachable!()
    };
    parts
}

// The floors of the blocks of a list that is divided.
fn put_blocks(out: &mut [u8], at: usize, job: &[u8], blocks: &[u32]) -> usize
    requires { (at ≤ length out.old) × BlocksHeld job.now blocks.now }
    ensures { Put out.old at (blocks_text (is_divided (fields_in job.now))
        (job_block_floors (fields_in job.now))) out.new result }
{
    match accepted_parts(job).blocks {
        Some(numbers) => put_list_line(out, at, b"blocks", &blocks[..numbers.len() / 2]),
        None => at,
    }
}

// The cuts of all rows: each one's images stand behind those of the row before.
fn put_rows(out: &mut [u8], job: &[u8], images: &[u32], scales: &[u32]) -> usize
    requires { RowsHeld job.now images.now scales.now }
    ensures { Put out.old 0 (rows_text (job_steps (fields_in job.now))
        (job_rows (fields_in job.now))) out.new result }
{
    let rows = accepted_parts(job).rows;
    let mut rest = job;
    let mut left = images;
    let mut next = 0;
    for scale in &scales[..rows] {
        let row = fields::rows::next_row(rest);
        let (own, behind) = left.split_at(row.coefficients.len() / 4);
        next = put_cut(out, next, u64::from(*scale), own);
        left = behind;
        rest = row.rest;
    }
    next
}

// A refusal's row, where the fourth byte is the kind of rows.
fn put_row(out: &mut [u8], at: usize, fourth: u8, row: u64) -> usize
    requires { at ≤ length out.old }
    ensures { Put out.old at (values_text (row_values fourth row)) out.new result }
{
    if fourth != fields::ROWS_KIND {
        return at;
    }
    put::put_value(out, at, row)
}

fn put_refused_line(out: &mut [u8], fourth: u8, number: u64, row: u64, step: u64) -> usize
    ensures { Put out.old 0 (line refused_word
        (number ∷ (row_values fourth row ++ (step ∷ [])))) out.new result }
{
    let behind = put::put_bytes(out, 0, b"refused");
    let first = put::put_value(out, behind, number);
    let second = put_row(out, first, fourth, row);
    let end = put::put_value(out, second, step);
    put::put_byte(out, end, b'\n')
}

// A refusal, of either operation.
fn put_refused(out: &mut [u8], job: &[u8], number: u64, row: u64, step: u64, list: &[u32]) -> usize
    requires { (length list.now ≤ most_entries)
        × (hand_over_text job.now ≡ refused_text (fourth_byte job.now)
        (record { number = number; row = row; step = step; list = list.now })) }
    ensures { TextPut out.old (hand_over_text job.now) out.new result }
{
    let next = put_refused_line(out, fourth_byte(job), number, row, step);
    if number != WITH_LIST {
        return next;
    }
    put_list_line(out, next, b"list", list)
}

// The fourth byte of a job, 0 where it is shorter.
pub(crate) fn fourth_byte(job: &[u8]) -> u8
    ensures { result ≡ fourth_byte job.now }
{
    job.get(3).copied().unwrap_or(0)
}

// The lines of an answer: the images, the list and the blocks' floors stand in the first places of the buffers.
pub(crate) fn put_floor_answer(
    out: &mut [u8],
    job: &[u8],
    answer: FloorAnswer,
    images: &[u32],
    list: &[u32],
    blocks: &[u32],
) -> usize
    requires { FloorLeft job.now answer images.now list.now blocks.now }
    ensures { TextPut out.old (hand_over_text job.now) out.new result }
{
    if answer.number != 0 {
        let told = &list[..answer.length as usize];
        return put_refused(out, job, answer.number, answer.row, answer.step, told);
    }
    let next = put_floor(out, answer, &images[..answer.n as usize]);
    put_blocks(out, next, job, blocks)
}

// The lines of an answer: the images, the list and the rows' scales stand in the first places of the buffers.
pub(crate) fn put_cut_answer(
    out: &mut [u8],
    job: &[u8],
    answer: CutAnswer,
    images: &[u32],
    list: &[u32],
    scales: &[u32],
) -> usize
    requires { CutLeft job.now answer images.now list.now scales.now }
    ensures { TextPut out.old (hand_over_text job.now) out.new result }
{
    if answer.number != 0 {
        let told = &list[..answer.length as usize];
        return put_refused(out, job, answer.number, answer.row, answer.step, told);
    }
    if fourth_byte(job) == fields::ROWS_KIND {
        return put_rows(out, job, images, scales);
    }
    put_cut(out, 0, answer.scale, &images[..answer.n as usize])
}
