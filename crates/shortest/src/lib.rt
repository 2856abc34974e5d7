// A shortest list that shows that a table is not dual-feasible.
#![tactic(auto)]

mod put;
mod rows;
mod seek;

ghost use Rattle.std.specs.Prelude.{◌≡◌};
ghost use Rattle.refusals.specs.Number.{number_of};
ghost use Rattle.shortest.specs.Shortest.{ShortestAnswered, refused_shortest};
ghost use Rattle.shortest.specs.Told.{told};

use refusals::Refusal;

/// The answer, as C reads it: the number that refuses the table and a length of 0, or 0 and the number of sizes of the list.
#[repr(C)]
#[derive(Clone, Copy)]
pub struct ShortestAnswer {
    pub number: u64,
    pub length: u64,
}

impl From<Refusal> for ShortestAnswer {
    ghost from_gives = { λ refusal answer. answer ≡ refused_shortest (number_of refusal) };

    fn from(refusal: Refusal) -> ShortestAnswer {
        ShortestAnswer {
            number: u64::from(refusal),
            length: 0,
        }
    }
}

// Writes a shortest list to the first places of `list`, and answers how many sizes it has.
fn answer_table(
    table: &[u32],
    working: &mut [u64],
    second: &mut [u64],
    list: &mut [u32],
) -> Result<usize, Refusal>
    ensures { ShortestAnswered table.now working.old second.old list.old (told result)
        working.new second.new list.new }
{
    tables::check_form(table, working.len().min(second.len()), list.len())?;
    let fewer = &mut working[..table.len()];
    let row = &mut second[..table.len()];
    let Some(split) = seek::fewest(table, fewer, row) else {
        return Err(Refusal::NoneOvershoots);
    };
    put::put_halves(table, split.first, fewer, row, &mut list[..split.sizes]);
    Ok(split.sizes)
}

/// A shortest list that shows that a table is not dual-feasible: its sizes total at most the table's capacity, their images more
/// than its last entry, and no list of fewer sizes does both. It stands in the first places of `list`, and its length, from 1 to
/// the capacity, is answered; which shortest list is shown is free. Both working buffers need a place for each entry, and the
/// list buffer as many as the capacity.
///
/// Refusals in order: 6, 7, 8, 9, 10 as in the table check, which write nothing, then 25, the table is dual-feasible. Then and
/// after acceptance the working buffers may hold anything.
pub fn windowfloor_shortest(
    table: &[u32],
    working: &mut [u64],
    second: &mut [u64],
    list: &mut [u32],
) -> ShortestAnswer
    ensures { ShortestAnswered table.now working.old second.old list.old result
        working.new second.new list.new }
{
    match answer_table(table, working, second, list) {
        Ok(length) => ShortestAnswer {
            number: 0,
            length: length as u64,
        },
        Err(refusal) => ShortestAnswer::from(refusal),
    }
}
