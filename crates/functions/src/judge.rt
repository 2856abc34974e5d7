// Whether a family step is accepted, and its scale. C and a job's step pass capacity, family, p and q singly:
// the struct that holds them, `FamilyStep`, is made behind these tests.
ghost use Rattle.std.specs.Prelude.{◌≡◌, true, ◌+◌, ◌-◌, ◌*◌, ◌/◌, ◌%◌, ◌≤◌, ◌<◌};
ghost use Rattle.functions.specs.Words.{limit, capacity_fits};
ghost use Rattle.functions.specs.Families.{is_family, legal, legal_for, legal_pair, family_scale};
ghost use Rattle.functions.specs.Prepared.{greatest_p, top_of};

use crate::LIMIT;

#[tactic(auto, unfolding(crate::specs::Families::is_family))]
pub(crate) fn is_family(family: u8) -> bool
    ensures { result ≡ is_family family }
{
    (1..=7).contains(&family)
}

// The parameter of families 1 to 5, which have no q. It is no more than the greatest.
#[tactic(auto, unfolding(crate::specs::Families::legal_for))]
fn legal_single(capacity: u64, family: u8, p: u64) -> bool
    requires { (capacity ≤ limit) × (1 ≤ family) × (family ≤ 5) × (p ≤ limit)
        × (p ≤ greatest_p capacity family) }
    ensures { result ≡ legal_for capacity family p 0 }
{
    match family {
        1 => 2 * p <= capacity + 1,
        2 => 1 <= p,
        3 => 1 <= p && 2 * p <= capacity,
        4 => 2 <= p,
        _ => 1 <= p,
    }
}

// The parameters of families 6 and 7: q + 1 is at least p up r where (q + 1) * r is at least p.
fn legal_pair(capacity: u64, p: u64, q: u64) -> bool
    requires { (p ≤ capacity) × (p ≤ limit) × (q ≤ limit) }
    ensures { result ≡ legal_pair capacity p q }
{
    if p < 1 {
        return false;
    }
    let r = capacity % p;
    0 < r && p <= (q + 1) * r
}

fn greatest_p(capacity: u64, family: u8) -> u64
    requires { capacity ≤ limit }
    ensures { (result ≤ limit) × (result ≡ greatest_p capacity family) }
{
    if family == 2 { LIMIT } else { capacity }
}

#[tactic(auto, using(crate::proofs::Legal::legal_within), unfolding(crate::specs::Families::legal))]
pub(crate) fn is_legal(capacity: u64, family: u8, p: u64, q: u64) -> bool
    requires { (1 ≤ capacity) × (capacity ≤ limit) × (1 ≤ family) × (family ≤ 7) }
    ensures { result ≡ legal capacity family p q }
{
    if greatest_p(capacity, family) < p {
        return false;
    }
    match family {
        1..=5 => q == 0 && legal_single(capacity, family, p),
        _ => q <= LIMIT && legal_pair(capacity, p, q),
    }
}

// A gap for each whole p of the capacity. It is within the capacity.
fn gaps(capacity: u64, p: u64) -> u64
    requires { 0 < p }
    ensures { result ≡ capacity / p * (p - capacity % p) }
{
    capacity / p * (p - capacity % p)
}

// The value at the capacity of what families 3, 4 and 6 mirror, which is half their scale.
pub(crate) fn top(capacity: u64, family: u8, p: u64, q: u64) -> u64
    requires { (capacity_fits capacity ≡ true) × (legal capacity family p q ≡ true) }
    ensures { (result ≡ top_of capacity family p q) × (2 * result ≤ (limit + 1) * (limit + 1)) }
{
    match family {
        3 => capacity / p,
        4 => p - 1,
        6 => (q + 1) * (capacity / p),
        _ => 0,
    }
}

// The scale. Of each product but that of family 7 the factors are within the limit; there
// the first factor is within the capacity. Families 3, 4 and 6 come last: in family 6 p is over 1,
// so that twice the top is within (q + 1) * capacity.
pub(crate) fn scale(capacity: u64, family: u8, p: u64, q: u64) -> u64
    requires { (capacity_fits capacity ≡ true) × (is_family family ≡ true)
        × (legal capacity family p q ≡ true) }
    ensures { result ≡ family_scale capacity family p q }
{
    match family {
        1 => capacity,
        2 => capacity * p,
        5 => gaps(capacity, p),
        7 => gaps(capacity, p) * (q + 1),
        _ => 2 * top(capacity, family, p, q),
    }
}
