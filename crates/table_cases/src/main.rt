// Runs the table check on the cases of standard input, a line each, in decimal, one space between:
// n w l s k and k pairs. The table has n entries, the working buffer w places and the list buffer l.
// Entry i is i * s, or the value of the last pair (i, value); a pair with another place is ignored.
// Writes a line for each answer: number, length, a checksum of each buffer, and the list.
#![tactic(auto)]

ghost use Rattle.cases.specs.Onward.{PassesSome};

use decimal::Numbers;
use std::io::{self, Write};

// The most bytes of standard input that are read.
const MOST_BYTES: usize = 65_536;

// The most entries of a case, one more than a table may have, and the most pairs.
const MOST_ENTRIES: usize = tables::MOST_ENTRIES + 1;

// The most places of a buffer.
const MOST_PLACES: usize = 2_100;

fn check_table<W: Write>(
    out: &mut W,
    table: &[u32],
    working: &mut [u64],
    list: &mut [u32],
) -> io::Result<()> {
    buffers::fill_working(working);
    buffers::fill(list, 900_000, 1);
    let answer = tables::windowfloor_table_check(table, working, list);
    let (working_sum, list_sum) = (buffers::checksum(working), buffers::checksum(list));
    write!(
        out,
        "{} {} {working_sum} {list_sum}",
        answer.number, answer.length
    )?;
    for number in &list[..buffers::at_most(answer.length, list.len())] {
        write!(out, " {number}")?;
    }
    writeln!(out)
}

fn run_case<W: Write>(out: &mut W, numbers: &mut Numbers<'_>) -> io::Result<()>
    ensures { PassesSome result numbers.old numbers.new }
{
    let [n, w, l] = numbers.next_numbers::<3>();
    let mut table = [0u32; MOST_ENTRIES];
    let mut working = [0u64; MOST_PLACES];
    let mut list = [0u32; MOST_PLACES];
    let table = buffers::front(&mut table, n);
    let working = buffers::front(&mut working, w);
    let list = buffers::front(&mut list, l);
    runs::put_pairs(numbers, table, MOST_ENTRIES);
    check_table(out, table, working, list)
}

fn main(rt: HostRuntime) -> io::Result<()> {
    cases::run::<MOST_BYTES, _>(rt, 1, run_case)
}
