// Runs the image operation on the cases of standard input, a line each: capacity, family, p, q and
// x in decimal, one space between. Writes a line for each answer: number, image and scale.
#![tactic(auto)]

ghost use Rattle.cases.specs.Onward.{PassesSome};

use decimal::Numbers;
use std::io::{self, Write};

// The most bytes of standard input that are read.
const MOST_BYTES: usize = 65_536;

// A few numbers are written by a `writeln!` or two, as in each case program but `job_cases`: a type with
// `Display` for them would be longer.
fn run_case<W: Write>(out: &mut W, numbers: &mut Numbers<'_>) -> io::Result<()>
    ensures { PassesSome result numbers.old numbers.new }
{
    let [capacity, family, p, q, x] = numbers.next_numbers::<5>();
    let answer = functions::windowfloor_image(capacity, buffers::low_byte(family), p, q, x);
    writeln!(out, "{} {} {}", answer.number, answer.image, answer.scale)
}

// Each case program has such a `main`, the one call of `cases::run` with its own case.
fn main(rt: HostRuntime) -> io::Result<()> {
    cases::run::<MOST_BYTES, _>(rt, 1, run_case)
}
