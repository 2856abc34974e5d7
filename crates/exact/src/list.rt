// The list: what refuses it, and its copies one after the other.
ghost use Rattle.std.specs.Prelude.{◌≡◌, ◌≤◌, length, IfOk};
ghost use Rattle.refusals.specs.Number.{number_in};
ghost use Rattle.functions.specs.Words.{total};
ghost use Rattle.fields.specs.Grammar.{most_sizes};
ghost use Rattle.exact.specs.Exact.{most_copies, exact_refusal};
ghost use Rattle.exact.specs.Expand.{Expanded};

use lists::CountedSizes;
use refusals::Refusal;

// The most copies in all, and the least places of the buffer for their windows.
pub(crate) const MOST_COPIES: usize = 10;

// How many copies there are in all.
fn count_copies(counts: &[u16]) -> u64
    requires { length counts.now ≤ most_sizes }
    ensures { result ≡ total counts.now }
{
    counts.iter().map(|count| u64::from(*count)).sum()
}

// The list at a capacity with a place for each window: refusals 1, those of the list, 24 and 7, in this order.
#[tactic(auto, unfolding(crate::specs::Exact::exact_refusal))]
pub(crate) fn short<'a>(
    capacity: u64,
    sizes: &'a [u32],
    counts: &'a [u16],
    places: usize,
) -> Result<CountedSizes<'a>, Refusal>
    ensures number { number_in result ≡ exact_refusal capacity sizes.now counts.now places }
    ensures list { IfOk result (λ l. (l.capacity ≡ capacity) × (l.sizes.now ≡ sizes.now)
        × (l.counts.now ≡ counts.now)) }
{
    functions::accept_capacity(capacity)?;
    let list = lists::counted(capacity, sizes, counts)?;
    if (MOST_COPIES as u64) < count_copies(list.counts) {
        return Err(Refusal::TooManyCopies);
    }
    if places < MOST_COPIES {
        return Err(Refusal::BufferTooShort);
    }
    Ok(list)
}

// Writes each size as often as its count to the first places, and answers how many there are.
pub(crate) fn expand(list: CountedSizes<'_>, copies: &mut [u64]) -> usize
    requires { (total list.counts.now ≤ most_copies) × (length copies.old ≡ most_copies) }
    ensures { Expanded list.entry.sizes.now list.entry.counts.now result copies.new }
{
    // The place that runs with the loop is the answer too: how many copies there are.
    let mut n = 0;
    for (size, count) in list.sizes.iter().zip(list.counts) {
        let end = n + usize::from(*count);
        copies[n..end].fill(u64::from(*size));
        n = end;
    }
    n
}
