// The sweep operation for C.
#![tactic(auto)]

ghost use Rattle.std.specs.Prelude.{◌≡◌, List, ℕ, ◌≤◌};
ghost use Rattle.jobs.specs.Packing.{copies, Fits, bins_used};
ghost use Rattle.sweeps.specs.Sweep.{sweep_answer};

use sweeps::SweepAnswer;

#[unsafe(no_mangle)]
pub extern "C" fn windowfloor_sweep(
    capacity: u64,
    family: u8,
    sizes: &[u32],
    counts: &[u16],
    low: u64,
    high: u64,
) -> SweepAnswer
    ensures answer { result ≡ sweep_answer capacity family sizes.now counts.now low high }
    ensures safe { (bins : List ℕ) → Fits capacity (copies counts.now sizes.now) bins
        → result.floor ≤ bins_used bins }
{
    sweeps::windowfloor_sweep(capacity, family, sizes, counts, low, high)
}
