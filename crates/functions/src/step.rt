// A family step that refusals 1 to 4 leave, with its scale.
ghost use Rattle.std.specs.Prelude.{◌≡◌};
ghost use Rattle.functions.specs.Families.{family_scale};
ghost use Rattle.functions.specs.Image.{family_refusal};

use crate::{copies, judge, steps};

#[derive(Clone, Copy)]
pub struct FamilyStep {
    pub capacity: u64,
    pub p: u64,
    pub q: u64,
    pub scale: u64,
    // The byte and no enum: the project's scope has a match on the byte that picks one of seven.
    pub family: u8,
    pub ghost accepted: { family_refusal capacity family p q ≡ 0 },
    pub ghost scaled: { scale ≡ family_scale capacity family p q },
}

impl FamilyStep {
    ghost use Rattle.std.specs.Prelude.{map, ◌-◌, ◌*◌, ◌^◌, ◌≤◌, ◌<◌, length};
    ghost use Rattle.functions.specs.Words.{limit, most_count, weighted, EachWithin};
    ghost use Rattle.functions.specs.Families.{family_image};
    ghost use Rattle.functions.specs.Summed.{Carriable};

    // A step that is known to be accepted.
    pub fn accepted(capacity: u64, family: u8, p: u64, q: u64) -> FamilyStep
        requires { family_refusal capacity family p q ≡ 0 }
        ensures { (result.capacity ≡ capacity) × (result.family ≡ family) × (result.p ≡ p) × (result.q ≡ q) }
    {
        FamilyStep {
            capacity,
            p,
            q,
            scale: judge::scale(capacity, family, p, q),
            family,
        }
    }

    // The step, its family told as a constant, on which the compiler folds what depends on it. `map` and `sum`
    // each have the arms: with one switch that takes a closure a sum takes up to 3.4 times as long, since the
    // loop, in a function of its own, chooses the family at each size. And the proof of `map` did not learn
    // what the closure made of the list.
    fn of_family(mut self, family: u8) -> FamilyStep
        requires { self.family ≡ family }
        ensures { result ≡ self }
    {
        self.family = family;
        self
    }

    // Maps each size of a list to its image, in place. That no size is over the capacity is asked with each
    // list: it is a fact about a step and a list together, so no type of either holds it, and a struct of
    // both, made anew for each p of a sweep and in each arm, would be no plainer.
    pub fn map(self, sizes: &mut [u32])
        requires { EachWithin self.capacity sizes.old }
        ensures { sizes.new ≡ map (family_image self.capacity self.family self.p self.q) sizes.old }
    {
        match self.family {
            1 => steps::map_sizes(self.of_family(1), sizes),
            2 => steps::map_sizes(self.of_family(2), sizes),
            3 => steps::map_sizes(self.of_family(3), sizes),
            4 => steps::map_sizes(self.of_family(4), sizes),
            5 => steps::map_sizes(self.of_family(5), sizes),
            6 => steps::map_sizes(self.of_family(6), sizes),
            _ => steps::map_sizes(self.of_family(7), sizes),
        }
    }

    // Sums count times image over a list. Only families 1 to 5 have steps with q 0. That each size has a count is
    // known of the list above, `CountedSizes` of `lists`: a struct here would be made anew from it for each p.
    pub fn sum(self, sizes: &[u32], counts: &[u16]) -> u64
        requires { (self.q ≡ 0) × EachWithin self.capacity sizes.now
            × (length counts.now ≡ length sizes.now) × (length sizes.now * (most_count * limit) < 2 ^ 64) }
        ensures { (result ≡ weighted counts.now (map (family_image self.capacity self.family self.p self.q) sizes.now))
            × (result ≤ length sizes.now * (most_count * limit)) }
    {
        match self.family {
            1 => steps::sum_sizes(self.of_family(1), sizes, counts),
            2 => steps::sum_sizes(self.of_family(2), sizes, counts),
            3 => steps::sum_sizes(self.of_family(3), sizes, counts),
            4 => steps::sum_sizes(self.of_family(4), sizes, counts),
            _ => steps::sum_sizes(self.of_family(5), sizes, counts),
        }
    }

    // The sum of family 1, from that at p - 1, `before`: the sizes p - 1 are mapped to 0 from here on, and
    // the sizes capacity - (p - 1) to the capacity.
    pub fn carry(self, before: u64, sizes: &[u32], counts: &[u16]) -> u64
        requires { (self.family ≡ 1) × (1 ≤ self.p) × (self.q ≡ 0) × EachWithin self.capacity sizes.now
            × Carriable sizes.now counts.now
            × (before ≡ weighted counts.now (map (family_image self.capacity 1 (self.p - 1) 0) sizes.now)) }
        ensures { (result ≡ weighted counts.now (map (family_image self.capacity 1 self.p 0) sizes.now))
            × (result ≤ length sizes.now * (most_count * limit)) }
    {
        let p = self.p - 1;
        let moved = copies::copies_of(sizes, counts, p as u32, (self.capacity - p) as u32);
        before + p * moved.second - p * moved.first
    }
}
