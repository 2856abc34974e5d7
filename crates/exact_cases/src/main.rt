// Finds the fewest windows of the cases of standard input, a line each, in decimal, one space between:
// c, then n k and k runs, then m j and j runs, then w first step. The list has n sizes: those of its runs
// (count, first, step) in turn, each size of a run step more than the one before it, mod 2^32, and 0
// behind them; what does not fit is ignored. It has m counts, made of the j runs in the same way, mod
// 2^16. The buffer for the windows has w places and holds first, first + step and so on, mod 2^32.
// Writes a line for each answer, in which nothing depends on which assignment is shown: number, fewest, 1
// if no window has more than the capacity or else 0, how many numbers the copies' places have, how many of
// these places hold one that is not below fewest, and a checksum of the places behind them. If refused, no
// place is a copy's.
#![tactic(auto)]

ghost use Rattle.std.specs.Prelude.{◌≤◌};
ghost use Rattle.cases.specs.Onward.{PassesSome};

use decimal::Numbers;
use exact::ExactAnswer;
use std::io::{self, Write};
use std::iter;

// The most bytes of standard input that are read.
const MOST_BYTES: usize = 262_144;

// The most places of the buffer for the windows.
const MOST_PLACES: usize = 40;

// Sizes that windows of a capacity take, and how many copies there are of each.
#[derive(Clone, Copy)]
struct List<'a> {
    capacity: u64,
    sizes: &'a [u32],
    counts: &'a [u16],
}

impl List<'_> {
    // How many copies the counts make, or the most if they make more.
    fn copies(&self, most: usize) -> usize
        ensures { result ≤ most }
    {
        self.counts
            .iter()
            .map(|count| usize::from(*count))
            .fold(0, usize::saturating_add)
            .min(most)
    }

    // The size of a copy, counted from 0; 0 if there are fewer.
    fn size_of(&self, copy: usize) -> u32 {
        self.sizes
            .iter()
            .zip(self.counts)
            .flat_map(|(size, count)| iter::repeat_n(*size, usize::from(*count)))
            .nth(copy)
            .unwrap_or(0)
    }

    // The total of the copies that are in a window.
    fn load(&self, windows: &[u32], window: u32) -> u64 {
        windows
            .iter()
            .enumerate()
            .filter(|(_, of_copy)| **of_copy == window)
            .map(|(copy, _)| u64::from(self.size_of(copy)))
            .fold(0, u64::saturating_add)
    }

    // Whether the copies of each window total at most the capacity.
    fn fits(&self, windows: &[u32]) -> bool {
        windows
            .iter()
            .all(|window| self.load(windows, *window) <= self.capacity)
    }
}

// How many different numbers there are: places whose number did not come before.
fn different(windows: &[u32]) -> usize {
    windows
        .iter()
        .enumerate()
        .filter(|(i, window)| !windows.iter().take(*i).any(|before| before == *window))
        .count()
}

fn not_below(windows: &[u32], fewest: u64) -> usize {
    windows
        .iter()
        .filter(|window| fewest <= u64::from(**window))
        .count()
}

// The windows are those of the copies, and behind them what was lent besides.
fn write_answer<W: Write>(
    out: &mut W,
    list: &List<'_>,
    windows: &[u32],
    answer: ExactAnswer,
) -> io::Result<()> {
    let copies = if answer.number == 0 {
        list.copies(windows.len())
    } else {
        0
    };
    let (windows, behind) = windows.split_at(copies);
    let fits = u8::from(list.fits(windows));
    let (numbers, above) = (different(windows), not_below(windows, answer.fewest));
    let sum = buffers::checksum(behind);
    writeln!(
        out,
        "{} {} {fits} {numbers} {above} {sum}",
        answer.number, answer.fewest
    )
}

fn run_case<W: Write>(out: &mut W, numbers: &mut Numbers<'_>) -> io::Result<()>
    ensures { PassesSome result numbers.old numbers.new }
{
    let capacity = numbers.next_number();
    let mut sizes = [0u32; runs::MOST_NUMBERS];
    let mut counts = [0u16; runs::MOST_NUMBERS];
    let sizes = runs::put_list(numbers, &mut sizes, buffers::fill);
    let counts = runs::put_list(numbers, &mut counts, buffers::fill_halves);
    let [w, first, step] = numbers.next_numbers::<3>();
    let mut windows = [0u32; MOST_PLACES];
    let windows = buffers::front(&mut windows, w);
    buffers::fill(windows, buffers::low_bits(first), buffers::low_bits(step));
    let answer = exact::windowfloor_exact(capacity, sizes, counts, windows);
    let list = List {
        capacity,
        sizes,
        counts,
    };
    write_answer(out, &list, windows, answer)
}

fn main(rt: HostRuntime) -> io::Result<()> {
    cases::run::<MOST_BYTES, _>(rt, 1, run_case)
}
