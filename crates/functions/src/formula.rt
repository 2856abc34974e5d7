// The seven formulas at one size. What a formula needs and the size does not change, as the
// remainder of the capacity, comes in as a number, so that a loop over sizes computes it once. Each
// asks for what its formula needs alone, which is less than that a step is accepted. As methods of
// `PreparedStep` all would ask for the whole step.
ghost use Rattle.std.specs.Prelude.{◌≡◌, ℕ, ◌+◌, ◌-◌, ◌*◌, ◌^◌, ◌≤◌, ◌<◌, min};
ghost use Rattle.functions.specs.Words.{limit};
ghost use Rattle.functions.specs.Families.{mirror, threshold, rounding, quotient, vanderbeck};
ghost use Rattle.functions.specs.Families.{burdett_johnson, letchford_lodi, dash_gunluk};

use crate::round_up;

// Half of the mirror's value at x, which leaves the rest of the capacity, but for the middle.
fn side(top: u64, part: u64, x: u64, rest: u64) -> u64
    requires { part ≤ top }
    ensures { (result ≤ top) × ((x < rest → result ≡ part) × (rest ≤ x → result ≡ top - part)) }
{
    if x < rest { part } else { top - part }
}

// The mirror at x of a function that `half` computes, from its value top at the capacity. Both tests
// choose between numbers that are there, so that the compiler needs no branch.
fn mirrored<F: Fn(u64) -> u64>(capacity: u64, top: u64, x: u64, half: F) -> u64
    requires range { (x ≤ capacity) × (2 * top < 2 ^ 64) }
    requires callable { (y : ℕ) → y ≤ capacity → F.pre half y }
    requires within { (y : ℕ) (part : ℕ) → y ≤ capacity → F.post half y part → part ≤ top }
    ensures { (g : ℕ → ℕ) → g capacity ≡ top → ((y : ℕ) (part : ℕ) → y ≤ capacity → F.post half y part → part ≡ g y)
        → result ≡ mirror capacity g x }
{
    let rest = capacity - x;
    let part = half(x.min(rest));
    let side = side(top, part, x, rest);
    if x == rest { top } else { 2 * side }
}

// Family 1. No size passes both tests.
#[tactic(auto, unfolding(crate::specs::Families::threshold))]
pub(crate) fn threshold(capacity: u64, p: u64, x: u64) -> u64
    requires { 2 * p ≤ capacity + 1 }
    ensures { result ≡ threshold capacity p x }
{
    if capacity - p < x {
        capacity
    } else if x < p {
        0
    } else {
        x
    }
}

// Family 2: x * (p + 1) rounded down to a multiple of the capacity, less x where it is one itself.
pub(crate) fn rounding(capacity: u64, p: u64, x: u64) -> u64
    requires { (0 < capacity) × (p ≤ limit) × (x < 2 ^ 32) }
    ensures { result ≡ rounding capacity p x }
{
    let scaled = x * (p + 1);
    let whole = scaled / capacity * capacity;
    if whole == scaled { whole - x } else { whole }
}

// Family 3, with top = capacity / p.
pub(crate) fn mirrored_quotient(capacity: u64, p: u64, top: u64, x: u64) -> u64
    requires { (x ≤ capacity) × (capacity ≤ limit) × (0 < p) × (top ≡ quotient p capacity) }
    ensures { result ≡ mirror capacity (quotient p) x }
{
    mirrored(capacity, top, x, |least| least / p)
}

// Family 4, with top = p - 1. The quotient is 0 for the size 0 alone, so that a difference which
// stops at 0 takes 1 off every other and nothing there.
pub(crate) fn mirrored_vanderbeck(capacity: u64, p: u64, top: u64, x: u64) -> u64
    requires { (x ≤ capacity) × (0 < capacity) × (capacity ≤ limit) × (1 ≤ p) × (p ≤ limit)
        × (top ≡ vanderbeck capacity p capacity) }
    ensures { result ≡ mirror capacity (vanderbeck capacity p) x }
{
    mirrored(
        capacity,
        top,
        x,
        |least| round_up(p * least, capacity).saturating_sub(1),
    )
}

// Family 5, with r = capacity % p.
#[tactic(auto, using(crate::proofs::Bounds::whole_most, crate::proofs::Remainder::burdett_johnson_is))]
pub(crate) fn burdett_johnson(p: u64, r: u64, x: u64) -> u64
    requires { r < p }
    ensures { result ≡ burdett_johnson p r x }
{
    x / p * (p - r) + (x % p).saturating_sub(r)
}

fn letchford_lodi(p: u64, q: u64, r: u64, x: u64) -> u64
    requires { (r < p) × (p ≤ limit) × (q ≤ limit) × (x ≤ limit) }
    ensures { result ≡ letchford_lodi p q r x }
{
    (q + 1) * (x / p) + round_up((x % p).saturating_sub(r) * q, p - r)
}

// Family 6, with r = capacity % p and top = (q + 1) * (capacity / p).
pub(crate) fn mirrored_letchford_lodi(
    capacity: u64,
    p: u64,
    q: u64,
    r: u64,
    top: u64,
    x: u64,
) -> u64
    requires { (x ≤ capacity) × (capacity ≤ limit) × (p ≤ capacity) × (q ≤ limit)
        × (r < p) × (p - r ≤ q * r) × (top ≡ letchford_lodi p q r capacity) }
    ensures { result ≡ mirror capacity (letchford_lodi p q r) x }
{
    mirrored(capacity, top, x, |least| letchford_lodi(p, q, r, least))
}

// Family 7, with r = capacity % p. The gap p - r divides q * (p - a) where it divides n.
pub(crate) fn dash_gunluk(p: u64, q: u64, r: u64, x: u64) -> u64
    requires { (r < p) × (p ≤ limit) × (q ≤ limit) × (x ≤ limit) }
    ensures { result ≡ dash_gunluk p q r x }
{
    let gap = p - r;
    let b = (x % p).saturating_sub(r);
    let n = b * q;
    let whole = round_up(n, gap) * gap;
    let base = x / p * gap * (q + 1);
    if whole == n {
        base + (n + b)
    } else {
        base + whole
    }
}
