// Runs the floor and the cut operation on the cases of standard input, a line each, in decimal, one
// space between: o i w l p b k and k runs. The operation is that of the cut if o is 2, else that of the
// floor. The image, working and list buffers and its own, for the blocks' floors or for the scales,
// have i, w, l and p places, and the job b bytes: those of the runs (count, byte) in turn, and 0 behind
// them; what does not fit is ignored. Empty lines are skipped: they fill up a block of 65,536 bytes, as
// no case lies in two. Writes a line for each answer: its nine or six numbers, then a checksum of each
// buffer but the working one.
#![tactic(auto)]

ghost use Rattle.cases.specs.Onward.{PassesSome};

use cuts::CutAnswer;
use decimal::Numbers;
use floors::FloorAnswer;
use std::fmt;
use std::io::{self, Write};

// The most blocks of standard input that are read, and the bytes of each.
const MOST_BLOCKS: usize = 64;

const BLOCK_BYTES: usize = 65_536;

// The most bytes of a job, one more than it may have, and the most runs.
const MOST_BYTES: usize = fields::MOST_BYTES + 1;

// The most places of a buffer.
const MOST_PLACES: usize = 2_100;

// The o of the cut operation.
const CUT: u64 = 2;

// The numbers of an answer, one space between.
#[derive(Drop)]
enum Shown {
    Floor(FloorAnswer),
    Cut(CutAnswer),
}

impl fmt::Display for Shown {
    fn fmt<W: fmt::Write>(&self, f: &mut fmt::Formatter<W>) -> fmt::Result {
        match self {
            Shown::Floor(a) => {
                write!(f, "{} {} {} {} {}", a.number, a.n, a.floor, a.sum, a.scale)?;
                write!(f, " {} {} {} {}", a.step, a.length, a.row, a.total)
            }
            Shown::Cut(a) => {
                write!(f, "{} {} {}", a.number, a.n, a.scale)?;
                write!(f, " {} {} {}", a.step, a.length, a.row)
            }
        }
    }
}

// The places that a case lends of a buffer, filled from a number on.
fn lent(buffer: &mut [u32], places: u64, first: u32) -> &mut [u32] {
    let lent = buffers::front(buffer, places);
    buffers::fill(lent, first, 1);
    lent
}

// Runs the job with buffers of so many places.
fn run_job<W: Write>(out: &mut W, operation: u64, places: [u64; 4], job: &[u8]) -> io::Result<()> {
    let [i, w, l, p] = places;
    let mut images = [0u32; MOST_PLACES];
    let mut working = [0u64; MOST_PLACES];
    let mut list = [0u32; MOST_PLACES];
    let mut own = [0u32; MOST_PLACES];
    let images = lent(&mut images, i, 800_000);
    let working = buffers::front(&mut working, w);
    buffers::fill_working(working);
    let list = lent(&mut list, l, 900_000);
    let own = lent(&mut own, p, 700_000);
    let answer = if operation == CUT {
        Shown::Cut(cuts::windowfloor_cut(job, images, working, list, own))
    } else {
        Shown::Floor(floors::windowfloor_floor(job, images, working, list, own))
    };
    let (image_sum, list_sum) = (buffers::checksum(images), buffers::checksum(list));
    let own_sum = buffers::checksum(own);
    writeln!(out, "{answer} {image_sum} {list_sum} {own_sum}")
}

// The case behind the empty lines, if there is one.
fn run_case<W: Write>(out: &mut W, numbers: &mut Numbers<'_>) -> io::Result<()>
    ensures { PassesSome result numbers.old numbers.new }
{
    numbers.skip_empty_lines();
    if numbers.is_done() {
        return Ok(());
    }
    let [operation, i, w, l, p] = numbers.next_numbers::<5>();
    let mut job = [0u8; MOST_BYTES];
    let job = runs::put_runs(numbers, &mut job, |numbers, run| {
        run.fill(buffers::low_byte(numbers.next_number()));
    });
    run_job(out, operation, [i, w, l, p], job)
}

fn main(rt: HostRuntime) -> io::Result<()> {
    cases::run::<BLOCK_BYTES, _>(rt, MOST_BLOCKS, run_case)
}
