// The sweep operation: the largest one-step lower bound on bins over a range of p.
#![tactic(auto)]

mod sweep;

ghost use Rattle.std.specs.Prelude.{◌≡◌, List, ℕ, ◌≤◌};
ghost use Rattle.jobs.specs.Packing.{copies, Fits, bins_used};
ghost use Rattle.refusals.specs.Number.{number_of};
ghost use Rattle.sweeps.specs.Sweep.{refused_sweep, sweep_answer};
ghost use Rattle.sweeps.specs.Progress.{found};

use crate::sweep::{Best, Sweep};
use refusals::Refusal;

// The answer to a sweep, as C reads it: the number that refuses it, or 0 with the largest lower bound on bins and
// the least p that gives it.
#[repr(C)]
#[derive(Clone, Copy)]
pub struct SweepAnswer {
    pub number: u64,
    pub floor: u64,
    pub p: u64,
}

impl From<Refusal> for SweepAnswer {
    ghost from_gives = { λ refusal answer. answer ≡ refused_sweep (number_of refusal) };

    fn from(refusal: Refusal) -> SweepAnswer {
        SweepAnswer {
            number: u64::from(refusal),
            floor: 0,
            p: 0,
        }
    }
}

impl From<Best> for SweepAnswer {
    ghost from_gives = { λ best answer. answer ≡ found best };

    fn from(best: Best) -> SweepAnswer {
        SweepAnswer {
            number: 0,
            floor: best.floor,
            p: best.p,
        }
    }
}

// The sweep operation: each p from low to high, with q 0. Each size has its count.
pub fn windowfloor_sweep(
    capacity: u64,
    family: u8,
    sizes: &[u32],
    counts: &[u16],
    low: u64,
    high: u64,
) -> SweepAnswer
    ensures answer { result ≡ sweep_answer capacity family sizes.now counts.now low high }
    ensures safe { (bins : List ℕ) → Fits capacity (copies counts.now sizes.now) bins
        → result.floor ≤ bins_used bins }
{
    Sweep::accepted(capacity, family, sizes, counts, low, high)
        .and_then(Sweep::best)
        .map_or_else(SweepAnswer::from, SweepAnswer::from)
}
