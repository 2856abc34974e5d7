// The fewest windows that a short list needs, and an assignment that uses no more.
#![tactic(auto)]

mod list;
mod search;

ghost use Rattle.std.specs.Prelude.{◌≡◌};
ghost use Rattle.refusals.specs.Number.{number_of};
ghost use Rattle.exact.specs.Exact.{ExactAnswered, refused_exact};
ghost use Rattle.exact.specs.Told.{told};

use refusals::Refusal;

// The answer, as C reads it: the number that refuses the list, or 0 with the fewest windows.
#[repr(C)]
#[derive(Clone, Copy)]
pub struct ExactAnswer {
    pub number: u64,
    pub fewest: u64,
}

impl From<Refusal> for ExactAnswer {
    ghost from_gives = { λ refusal answer. answer ≡ refused_exact (number_of refusal) };

    fn from(refusal: Refusal) -> ExactAnswer {
        ExactAnswer {
            number: u64::from(refusal),
            fewest: 0,
        }
    }
}

// The answer to a list that is accepted.
fn answer_list(
    capacity: u64,
    sizes: &[u32],
    counts: &[u16],
    windows: &mut [u32],
) -> Result<ExactAnswer, Refusal>
    ensures { ExactAnswered capacity sizes.now counts.now windows.old (told result)
        windows.new }
{
    let list = list::short(capacity, sizes, counts, windows.len())?;
    // An array of 10 places, of which a slice goes on: a vector of a fixed size would be one more library
    // for this one array.
    let mut copies = [0; list::MOST_COPIES];
    let n = list::expand(list, &mut copies);
    let fewest = search::fewest(capacity, &copies[..n], windows);
    Ok(ExactAnswer {
        number: 0,
        fewest: fewest as u64,
    })
}

// The exact operation, for at most 10 copies in all. Each size has its count.
pub fn windowfloor_exact(
    capacity: u64,
    sizes: &[u32],
    counts: &[u16],
    windows: &mut [u32],
) -> ExactAnswer
    ensures { ExactAnswered capacity sizes.now counts.now windows.old result
        windows.new }
{
    answer_list(capacity, sizes, counts, windows).unwrap_or_else(ExactAnswer::from)
}
