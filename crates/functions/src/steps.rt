// A family step prepared, and its sizes: the image of one, a list mapped, a list's images summed. What
// no size changes is computed once. The callers give the family as a constant, so that the compiler
// folds what depends on it; `inline(always)` takes it into the loops, which else take up to three times
// as long.
ghost use Rattle.std.specs.Prelude.{◌≡◌, map, ◌*◌, ◌^◌, ◌≤◌, ◌<◌, length};
ghost use Rattle.functions.specs.Words.{limit, most_count, weighted, EachWithin};
ghost use Rattle.functions.specs.Families.{family_image};
ghost use Rattle.functions.specs.Prepared.{remainder_of, top_of};

use crate::{FamilyStep, formula, judge};

// A step with what no size changes.
#[derive(Clone, Copy)]
pub(crate) struct PreparedStep {
    pub(crate) step: FamilyStep,
    pub(crate) remainder: u64,
    pub(crate) top: u64,
    pub(crate) ghost remains: { remainder ≡ remainder_of step.capacity step.family step.p },
    pub(crate) ghost at_top: { top ≡ top_of step.capacity step.family step.p step.q },
}

impl PreparedStep {
    // Only family 1 takes p = 0, and it has no use for the remainder.
    pub(crate) fn of(step: FamilyStep) -> PreparedStep
        ensures { result.step ≡ step }
    {
        PreparedStep {
            step,
            remainder: if step.family == 1 {
                0
            } else {
                step.capacity % step.p
            },
            top: judge::top(step.capacity, step.family, step.p, step.q),
        }
    }

    // The image of a size within the capacity.
    #[inline(always)]
    pub(crate) fn image(self, x: u64) -> u64
        requires { x ≤ self.step.capacity }
        ensures { result ≡ family_image self.step.capacity self.step.family self.step.p self.step.q x }
    {
        let FamilyStep { capacity, p, q, .. } = self.step;
        match self.step.family {
            1 => formula::threshold(capacity, p, x),
            2 => formula::rounding(capacity, p, x),
            3 => formula::mirrored_quotient(capacity, p, self.top, x),
            4 => formula::mirrored_vanderbeck(capacity, p, self.top, x),
            5 => formula::burdett_johnson(p, self.remainder, x),
            6 => formula::mirrored_letchford_lodi(capacity, p, q, self.remainder, self.top, x),
            _ => formula::dash_gunluk(p, q, self.remainder, x),
        }
    }
}

// Maps each size to its image, in place.
#[inline(always)]
pub(crate) fn map_sizes(step: FamilyStep, sizes: &mut [u32])
    requires { EachWithin step.capacity sizes.old }
    ensures { sizes.new ≡ map (family_image step.capacity step.family step.p step.q) sizes.old }
{
    let prepared = PreparedStep::of(step);
    for size in sizes.iter_mut() {
        *size = prepared.image(u64::from(*size)) as u32;
    }
}

// Sums count times image over the sizes. No image is over the limit, so no sum passes 64 bits.
#[inline(always)]
pub(crate) fn sum_sizes(step: FamilyStep, sizes: &[u32], counts: &[u16]) -> u64
    requires { EachWithin step.capacity sizes.now
        × (length counts.now ≡ length sizes.now) × (length sizes.now * (most_count * limit) < 2 ^ 64) }
    ensures { (result ≡ weighted counts.now (map (family_image step.capacity step.family step.p step.q) sizes.now))
        × (result ≤ length sizes.now * (most_count * limit)) }
{
    let prepared = PreparedStep::of(step);
    let mut sum = 0;
    for (size, count) in sizes.iter().zip(counts) {
        sum += u64::from(*count) * prepared.image(u64::from(*size));
    }
    sum
}
