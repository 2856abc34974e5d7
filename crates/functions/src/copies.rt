// The copies of two sizes in a list. Numbers of 32 bits hold all counts, and a turn chooses between
// numbers that are there, so that the compiler takes several sizes in a turn.
ghost use Rattle.std.specs.Prelude.{◌≡◌, ◌*◌, ◌^◌, ◌<◌, length};
ghost use Rattle.functions.specs.Words.{most_count};
ghost use Rattle.functions.specs.Summed.{same_as, CopiesOf};

#[derive(Clone, Copy)]
pub(crate) struct Copies {
    pub(crate) first: u64,
    pub(crate) second: u64,
}

// The count of a size that is v, and 0 of any other.
#[tactic(auto, unfolding(crate::specs::Summed::same_as))]
fn counted_if(x: u32, v: u32, count: u32) -> u32
    ensures { result ≡ count * same_as v x }
{
    if x == v { count } else { 0 }
}

pub(crate) fn copies_of(sizes: &[u32], counts: &[u16], v: u32, w: u32) -> Copies
    requires { (length counts.now ≡ length sizes.now) × (length sizes.now * most_count < 2 ^ 32) }
    ensures { CopiesOf v counts.now sizes.now result.first
        × CopiesOf w counts.now sizes.now result.second }
{
    let mut first = 0;
    let mut second = 0;
    for (size, count) in sizes.iter().zip(counts) {
        let count = u32::from(*count);
        first += counted_if(*size, v, count);
        second += counted_if(*size, w, count);
    }
    Copies {
        first: u64::from(first),
        second: u64::from(second),
    }
}
