// A list of sizes with a count for each, lent by a caller outside of a job.
#![tactic(auto)]

mod sizes;

ghost use Rattle.std.specs.Prelude.{◌≡◌, IfOk};
ghost use Rattle.refusals.specs.Number.{number_in};
ghost use Rattle.chains.specs.Sizes.{sizes_within, counts_positive};
ghost use Rattle.lists.specs.Counted.{counted_refusal};

use refusals::Refusal;
pub use sizes::CountedSizes;

// Whether each size is from 1 to the capacity.
//
// `chains` has this test and the next one over the bytes of a job. Each is one `all` of the library, and one
// function of both would take the conversion as a parameter: no plainer.
fn sizes_fit(capacity: u64, sizes: &[u32]) -> bool
    ensures { result ≡ sizes_within 1 capacity sizes.now }
{
    sizes
        .iter()
        .all(|size| (1..=capacity).contains(&u64::from(*size)))
}

// Whether each count is 1 or more.
fn counts_fit(counts: &[u16]) -> bool
    ensures { result ≡ counts_positive counts.now }
{
    counts.iter().all(|count| 1 <= *count)
}

// The list with its counts at a capacity that passed: refusals 6, 17 and 22, in this order.
#[tactic(auto, unfolding(crate::specs::Counted::counted_refusal))]
pub fn counted<'a>(
    capacity: u64,
    sizes: &'a [u32],
    counts: &'a [u16],
) -> Result<CountedSizes<'a>, Refusal>
    ensures number { number_in result ≡ counted_refusal capacity sizes.now counts.now }
    ensures list { IfOk result (λ l. (l.capacity ≡ capacity) × (l.sizes.now ≡ sizes.now)
        × (l.counts.now ≡ counts.now)) }
{
    if fields::MOST_SIZES < sizes.len() || counts.len() != sizes.len() {
        return Err(Refusal::ListLength);
    }
    if !sizes_fit(capacity, sizes) {
        return Err(Refusal::Size);
    }
    if !counts_fit(counts) {
        return Err(Refusal::Count);
    }
    Ok(CountedSizes {
        capacity,
        sizes,
        counts,
    })
}
