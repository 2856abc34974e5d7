// Blocks of a list: whether they divide it, and the sum of each, rounded up by a scale.
#![tactic(auto)]

ghost use Rattle.std.specs.Prelude.{◌≡◌, ◌/◌, ◌≤◌, length};
ghost use Rattle.functions.specs.Words.{total};
ghost use Rattle.fields.specs.Bytes.{halfwords};
ghost use Rattle.fields.specs.Grammar.{most_blocks};
ghost use Rattle.blocks.specs.Block.{blocks_fit};
ghost use Rattle.blocks.specs.Sums.{Divided, Summed};

// The sum over all blocks, and the total of the blocks' sums rounded up.
#[derive(Clone, Copy)]
pub struct BlockSums {
    pub sum: u64,
    pub total: u64,
}

// The total of numbers of two bytes.
fn add_up(numbers: &[u8]) -> u64
    requires { length numbers.now / 2 ≤ most_blocks }
    ensures { result ≡ total (halfwords numbers.now) }
{
    let (numbers, _) = numbers.as_chunks::<2>();
    numbers
        .iter()
        .map(|n| u64::from(u16::from_be_bytes(*n)))
        .sum()
}

// Whether the blocks divide a list of so many sizes: refusal 23 is that they do not.
#[tactic(auto, using(fields::proofs::Decoding::halfwords_count), unfolding(crate::specs::Block::blocks_fit))]
pub fn blocks_fit(numbers: &[u8], sizes: usize) -> bool
    ensures { result ≡ blocks_fit (halfwords numbers.now) sizes }
{
    numbers.len() / 2 <= fields::MOST_BLOCKS
        && chains::list::counts_positive(numbers)
        && add_up(numbers) == sizes as u64
}

// Writes each block's sum, divided by the scale and rounded up, and adds up the sums and what it wrote.
pub fn write_floors(
    counts: &[u8],
    numbers: &[u8],
    images: &[u32],
    scale: u64,
    floors: &mut [u32],
) -> BlockSums
    requires { Divided counts.now numbers.now images.now scale floors.old }
    ensures { Summed counts.now numbers.now images.now scale
        floors.old result floors.new }
{
    let mut sum = 0;
    let mut total = 0;
    let mut left = images;
    let mut left_counts = counts;
    let (blocks, _) = numbers.as_chunks::<2>();
    for (k, number) in blocks.iter().enumerate() {
        let n = usize::from(u16::from_be_bytes(*number));
        let (block, others) = left.split_at(n);
        // Where the list has no counts, no block has any.
        let (block_counts, other_counts) = left_counts.split_at(left_counts.len().min(2 * n));
        let part = chains::list::sum_of(block_counts, block);
        let floor = functions::round_up(part, scale);
        // By place: of a buffer lent by `iter_mut` through `zip` nothing is known at the loop's end.
        floors[k] = floor as u32;
        sum += part;
        total += floor;
        left = others;
        left_counts = other_counts;
    }
    BlockSums { sum, total }
}
