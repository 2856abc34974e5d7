// The bytes of a job: its fields read one after the other, refusals 13 to 15, and its parts.
#![tactic(auto)]

mod grammar;
mod parts;
mod reader;
pub mod rows;
mod steps;
mod tag;
pub mod words;

ghost use Rattle.fields.specs.Record.{JobReading};

use grammar::Place;
use refusals::Refusal;
pub use steps::{JobStep, JobSteps, StepFunction};

// The most bytes, sizes (in kind 3 coefficients of all rows), rows, blocks and steps of a job.
pub const MOST_BYTES: usize = 65_535;

pub const MOST_SIZES: usize = 2_048;

pub const MOST_ROWS: usize = 64;

pub const MOST_BLOCKS: usize = 64;

pub const MOST_STEPS: usize = 8;

// The kind byte of a floor job, and of a job with many rows.
pub const FLOOR_KIND: u8 = 1;

pub const ROWS_KIND: u8 = 3;

// The bytes of a header: a tag and a two-byte length.
const HEADER: usize = 3;

// The header of a field. The tag is a byte here: an unknown one is refused by 14, behind 13.
#[derive(Clone, Copy)]
pub struct Header {
    pub tag: u8,
    pub length: usize,
}

// The parts of a job: of its rows how many there are, and how many coefficients they have in all. Lists of
// numbers are their bytes, of which a value of a field is a part and the definitions speak, and are cut into
// chunks where they are read.
#[derive(Clone, Copy)]
pub struct JobParts<'a> {
    pub capacity: u64,
    pub sizes: &'a [u8],
    // Empty where there is no tag 7, and where a tag 7 has no bytes. No counts are given in both cases
    // (`counts_for`), so an `Option` would say the same in two ways.
    pub counts: &'a [u8],
    // An `Option`, since a tag 8 may give no block and is still there.
    pub blocks: Option<&'a [u8]>,
    pub steps: JobSteps<'a>,
    pub rows: usize,
    pub coefficients: usize,
    // A byte and no enum: 16 refuses an unknown kind, and is told behind 13 to 15.
    pub kind: u8,
}

// A row of a job: its right side, which is its capacity, its coefficients, and the rest of the job behind it.
#[derive(Clone, Copy)]
pub struct JobRow<'a> {
    pub capacity: u64,
    pub coefficients: &'a [u8],
    pub rest: &'a [u8],
}

// Reads all fields of a job, one after the other. The loop goes over what is left of the job: an iterator's
// type, used here alone, would be longer.
pub fn read_job(job: &[u8]) -> Result<JobParts<'_>, Refusal>
    ensures { JobReading job.now result }
{
    let mut parts = parts::no_parts();
    let mut last = None;
    let mut rest = job;
    while !rest.is_empty() {
        let header = reader::read_header(rest);
        let place = Place {
            kind: parts.kind,
            last,
            steps: parts.steps.count,
            sizes: parts.sizes.len() / 4,
        };
        let tag = place.accept(header)?;
        parts = parts::with_field(parts, tag, reader::field_value(rest, header));
        last = Some(tag);
        rest = reader::field_rest(rest, header);
    }
    if !grammar::may_end(parts.kind, last) {
        return Err(Refusal::TagOutOfPlace);
    }
    Ok(parts)
}
