// Lists of sizes and their counts: tested where they lie, and summed.
ghost use Rattle.std.specs.Prelude.{◌≡◌, ℕ, ◌*◌, ◌≤◌, length};
ghost use Rattle.refusals.specs.Number.{number_in};
ghost use Rattle.functions.specs.Words.{total, most_count, weighted, EachWithin};
ghost use Rattle.fields.specs.Bytes.{halfwords, words};
ghost use Rattle.fields.specs.Parts.{counts_for};
ghost use Rattle.fields.specs.Grammar.{most_sizes};
ghost use Rattle.chains.specs.Sizes.{sizes_within, counts_positive, list_refusal, NoneOrEach};

use crate::SizeList;
use refusals::Refusal;

// Whether each number is from least to the capacity. The crate of lists has its like over numbers that
// are no bytes. Each is one `all` of the library: one function of both would take the reading as a
// parameter, and be no plainer.
fn sizes_within(bytes: &[u8], least: u64, capacity: u64) -> bool
    ensures { result ≡ sizes_within least capacity (words bytes.now) }
{
    let (sizes, _) = bytes.as_chunks::<4>();
    sizes.iter().all(|size| (least..=capacity).contains(&u64::from(u32::from_be_bytes(*size))))
}

// Whether each number of two bytes is 1 or more.
pub fn counts_positive(bytes: &[u8]) -> bool
    ensures { result ≡ counts_positive (halfwords bytes.now) }
{
    let (counts, _) = bytes.as_chunks::<2>();
    counts.iter().all(|count| 1 <= u16::from_be_bytes(*count))
}

// Refusals 1, 17, 22 and 23.
#[tactic(auto, unfolding(crate::specs::Sizes::list_refusal))]
pub(crate) fn refuse_list(list: SizeList<'_>) -> Result<(), Refusal>
    ensures { number_in result ≡ list_refusal list.entry.least list.entry.capacity
        (words list.entry.sizes.now) (halfwords list.entry.counts.now) list.entry.divided }
{
    functions::accept_capacity(list.capacity)?;
    if !sizes_within(list.sizes, list.least, list.capacity) {
        return Err(Refusal::Size);
    }
    if !counts_positive(list.counts) {
        return Err(Refusal::Count);
    }
    if !list.divided {
        return Err(Refusal::Blocks);
    }
    Ok(())
}

// The sum of numbers, each counted once. Of the two ways of `sum_of` each asks for as few numbers as it does.
fn plain_sum(list: &[u32]) -> u64
    requires { length list.now ≤ most_sizes }
    ensures { result ≡ total list.now }
{
    list.iter().map(|x| u64::from(*x)).sum()
}

// The sum of count times number.
fn counted_sum(bytes: &[u8], list: &[u32]) -> u64
    requires { (length bytes.now ≡ 2 * length list.now) × (length list.now ≤ most_sizes) }
    ensures { (result ≡ weighted (halfwords bytes.now) list.now)
        × ((most : ℕ) → EachWithin most list.now → result ≤ length list.now * (most_count * most)) }
{
    let (counts, _) = bytes.as_chunks::<2>();
    let mut sum = 0;
    for (count, x) in counts.iter().zip(list) {
        sum += u64::from(u16::from_be_bytes(*count)) * u64::from(*x);
    }
    sum
}

// Sums count times number: at most the greatest of both for each number.
pub fn sum_of(bytes: &[u8], list: &[u32]) -> u64
    requires { NoneOrEach bytes.now (length list.now) × (length list.now ≤ most_sizes) }
    ensures { (result ≡ weighted (counts_for (halfwords bytes.now) (length list.now))
        list.now)
        × ((most : ℕ) → EachWithin most list.now → result ≤ length list.now * (most_count * most)) }
{
    if bytes.is_empty() {
        return plain_sum(list);
    }
    counted_sum(bytes, list)
}
