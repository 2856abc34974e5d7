// Runs the sweep on the cases of standard input, a line each, in decimal, one space between:
// c f low high, then n k and k runs, then m j and j runs. The list has n sizes: those of its runs
// (count, first, step) in turn, each size of a run step more than the one before it, mod 2^32, and 0
// behind them; what does not fit is ignored. It has m counts, made of the j runs in the same way, mod
// 2^16. Writes a line for each answer: number, floor, p.
#![tactic(auto)]

ghost use Rattle.cases.specs.Onward.{PassesSome};

use decimal::Numbers;
use std::io::{self, Write};

// The most bytes of standard input that are read.
const MOST_BYTES: usize = 262_144;

fn run_case<W: Write>(out: &mut W, numbers: &mut Numbers<'_>) -> io::Result<()>
    ensures { PassesSome result numbers.old numbers.new }
{
    let [capacity, family, low, high] = numbers.next_numbers::<4>();
    let mut sizes = [0u32; runs::MOST_NUMBERS];
    let mut counts = [0u16; runs::MOST_NUMBERS];
    let sizes = runs::put_list(numbers, &mut sizes, buffers::fill);
    let counts = runs::put_list(numbers, &mut counts, buffers::fill_halves);
    let family = buffers::low_byte(family);
    let answer = sweeps::windowfloor_sweep(capacity, family, sizes, counts, low, high);
    writeln!(out, "{} {} {}", answer.number, answer.floor, answer.p)
}

fn main(rt: HostRuntime) -> io::Result<()> {
    cases::run::<MOST_BYTES, _>(rt, 1, run_case)
}
