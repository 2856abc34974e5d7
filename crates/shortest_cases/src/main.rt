// Looks for shortest lists in the cases of standard input, a line each, in decimal, one space between: n w v l, then
// s k and k pairs. The table has n entries; they are made of s and the pairs as those of all case programs, by
// `runs::put_table`. The working buffers have w and v places and the list buffer l.
// Writes a line for each answer, in which nothing depends on which shortest list is shown and on what the working
// buffers hold where they are free: number, length, 1 if the list's sizes total at most the capacity or else 0, 1 if
// their images total more than the last entry or else 0, how many of the sizes are 0, a checksum of the places behind
// the list, and for the numbers 6 to 10 a checksum of each working buffer, or else 0 twice. If refused, the list is
// empty.
#![tactic(auto)]

ghost use Rattle.cases.specs.Onward.{PassesSome};

use decimal::Numbers;
use shortest::ShortestAnswer;
use std::io::{self, Write};

// The most bytes of standard input that are read.
const MOST_BYTES: usize = 262_144;

// The most entries of a case, one more than a table may have.
const MOST_ENTRIES: usize = tables::MOST_ENTRIES + 1;

// The most places of a buffer.
const MOST_PLACES: usize = 2_100;

// Whether sizes total at most the capacity of a table.
fn fits(table: &[u32], sizes: &[u32]) -> bool {
    let total = sizes
        .iter()
        .map(|size| u64::from(*size))
        .fold(0, u64::saturating_add);
    total < table.len().max(1) as u64
}

// An entry, 0 if there is none.
fn entry(table: &[u32], place: usize) -> u64 {
    table.get(place).map_or(0, |entry| u64::from(*entry))
}

// Whether the images of sizes total more than the last entry.
fn overshoots(table: &[u32], sizes: &[u32]) -> bool {
    let total = sizes
        .iter()
        .map(|size| entry(table, *size as usize))
        .fold(0, u64::saturating_add);
    entry(table, table.len().saturating_sub(1)) < total
}

// The checksum of a working buffer, 0 where it is free.
fn sum_of_kept(working: &[u64], number: u64) -> u64 {
    if (6..=10).contains(&number) {
        buffers::checksum(working)
    } else {
        0
    }
}

fn write_list<W: Write>(
    out: &mut W,
    table: &[u32],
    list: &[u32],
    answer: ShortestAnswer,
) -> io::Result<()> {
    let (sizes, behind) = list.split_at(buffers::at_most(answer.length, list.len()));
    let fits = u8::from(fits(table, sizes));
    let overshoots = u8::from(overshoots(table, sizes));
    let zeros = sizes.iter().filter(|size| **size == 0).count();
    let sum = buffers::checksum(behind);
    write!(
        out,
        "{} {} {fits} {overshoots} {zeros} {sum}",
        answer.number, answer.length
    )
}

fn seek_list<W: Write>(
    out: &mut W,
    table: &[u32],
    working: &mut [u64],
    second: &mut [u64],
    list: &mut [u32],
) -> io::Result<()> {
    buffers::fill_working(working);
    buffers::fill_working(second);
    buffers::fill(list, 900_000, 1);
    let answer = shortest::windowfloor_shortest(table, working, second, list);
    write_list(out, table, list, answer)?;
    let working_sum = sum_of_kept(working, answer.number);
    let second_sum = sum_of_kept(second, answer.number);
    writeln!(out, " {working_sum} {second_sum}")
}

fn run_case<W: Write>(out: &mut W, numbers: &mut Numbers<'_>) -> io::Result<()>
    ensures { PassesSome result numbers.old numbers.new }
{
    let [n, w, v, l] = numbers.next_numbers::<4>();
    let mut table = [0u32; MOST_ENTRIES];
    let mut working = [0u64; MOST_PLACES];
    let mut second = [0u64; MOST_PLACES];
    let mut list = [0u32; MOST_PLACES];
    let table = buffers::front(&mut table, n);
    let working = buffers::front(&mut working, w);
    let second = buffers::front(&mut second, v);
    let list = buffers::front(&mut list, l);
    runs::put_table(numbers, table);
    seek_list(out, table, working, second, list)
}

fn main(rt: HostRuntime) -> io::Result<()> {
    cases::run::<MOST_BYTES, _>(rt, 1, run_case)
}
