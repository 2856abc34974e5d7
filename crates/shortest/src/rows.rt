// Rows of greatest totals: row k has, at place c, the greatest total of images over lists of at most k sizes that fit c.
ghost use Rattle.std.specs.Prelude.{◌≡◌, MatchOption, ◌+◌, ◌-◌, ◌*◌, ◌/◌, ◌≤◌, ◌<◌, length};
ghost use Rattle.functions.specs.Words.{limit};
ghost use Rattle.shortest.specs.Rows.{Room, Row, Rows, Small, Offered};
ghost use Rattle.shortest.specs.Halves.{PairsWithin, PairOver, GreatestPair, Halves};

// Row 0, which is nothing, and row 1, the greatest entry so far.
pub(crate) fn first_rows(table: &[u32], fewer: &mut [u64], row: &mut [u64])
    requires { Room table.now fewer.old row.old }
    ensures { Rows table.now 1 fewer.new row.new }
{
    fewer.fill(0);
    let mut top = 0;
    for c in 0..row.len() {
        top = top.max(u64::from(table[c]));
        row[c] = top;
    }
}

// Offers a size as the least of k sizes: its image, and what k - 1 sizes reach in what it leaves.
fn offer(size: usize, image: u64, k: usize, fewer: &[u64], row: &mut [u64])
    requires same { length fewer.now ≡ length row.old }
    requires positive { 1 ≤ k }
    requires fits { k * size < length row.old }
    requires small { Small fewer.now }
    requires small_image { image ≤ limit }
    ensures { Offered size image k fewer.now row.old row.new }
{
    for c in k * size..row.len() {
        row[c] = row[c].max(fewer[c - size] + image);
    }
}

// Takes row k - 1 to row k, and leaves row k - 1 in `fewer`. The least of k sizes that fit c is at most c / k, and a size
// is of no use where a smaller one has as great an image.
pub(crate) fn next_row(table: &[u32], k: usize, fewer: &mut [u64], row: &mut [u64])
    requires room { Room table.now fewer.old row.old }
    requires before { Row table.now (k - 1) row.old }
    requires positive { 1 ≤ k }
    ensures { Rows table.now k fewer.new row.new }
{
    fewer.copy_from_slice(row);
    let mut top = 0;
    for size in 1..(row.len() - 1) / k + 1 {
        let image = u64::from(table[size]);
        if top < image {
            top = image;
            offer(size, image, k, fewer, row);
        }
    }
}

// A part of the capacity, for the sizes of the first row, at which those of both rows reach more than the scale. At most
// half of it is enough where the first row has no more sizes. The greatest part is taken, so that both are small: that is
// for speed, and not promised.
pub(crate) fn place_over(first: &[u64], rest: &[u64], scale: u64) -> Option<usize>
    requires some { 1 ≤ length first.now }
    requires same { length first.now ≡ length rest.now }
    requires small { Small first.now }
    requires small_rest { Small rest.now }
    ensures { MatchOption result (PairsWithin first.now rest.now scale)
        (λ s. PairOver first.now rest.now scale s) }
{
    let last = first.len() - 1;
    for s in (0..last / 2 + 1).rev() {
        if scale < first[s] + rest[last - s] {
            return Some(s);
        }
    }
    None
}

// The part at which the sizes of both rows reach most; of several the greatest.
fn greatest_place(first: &[u64], rest: &[u64]) -> usize
    requires some { 1 ≤ length first.now }
    requires same { length first.now ≡ length rest.now }
    requires small { Small first.now }
    requires small_rest { Small rest.now }
    ensures { GreatestPair first.now rest.now result }
{
    let last = first.len() - 1;
    let mut most = first[0] + rest[last];
    let mut place = 0;
    for s in 1..last / 2 + 1 {
        let sum = first[s] + rest[last - s];
        if most <= sum {
            most = sum;
            place = s;
        }
    }
    place
}

// The part of the capacity for half of n sizes, by rows up to the other half.
pub(crate) fn halves(table: &[u32], n: usize, fewer: &mut [u64], row: &mut [u64]) -> usize
    requires room { Room table.now fewer.old row.old }
    requires some { 2 ≤ n }
    ensures { Halves table.now n (length row.old - 1) result }
{
    first_rows(table, fewer, row);
    for k in 2..n - n / 2 + 1 {
        next_row(table, k, fewer, row);
    }
    if n % 2 == 0 {
        return greatest_place(row, row);
    }
    greatest_place(fewer, row)
}
