// The sweep over a range of p: the largest one-step lower bound on bins, and the least p that gives it.
ghost use Rattle.std.specs.Prelude.{◌≡◌, ◌+◌, ◌-◌, ◌≤◌, suc};
ghost use Rattle.sweeps.specs.Sweep.{widest};

use functions::FamilyStep;
use lists::CountedSizes;
use refusals::Refusal;

// The most that high is above low.
const WIDEST: u64 = 4_095;

// A family, by its byte as C passes it, over a list, and the range of its parameter p.
#[derive(Clone, Copy)]
pub(crate) struct Sweep<'a> {
    list: CountedSizes<'a>,
    low: u64,
    high: u64,
    family: u8,
    ghost ascending: { low ≤ high },
    ghost narrow: { high - low ≤ widest },
}

// The largest floor, and the least p that gives it.
#[derive(Clone, Copy)]
pub(crate) struct Best {
    pub(crate) floor: u64,
    pub(crate) p: u64,
}

// The best of the parameters so far, and the sum of the last one where that passed.
#[derive(Clone, Copy)]
struct Swept {
    best: Option<Best>,
    sum: Option<u64>,
}

impl Swept {
    ghost use Rattle.sweeps.specs.Progress.{Better};

    // The best of the parameters so far and p, which passes and has this floor: p only where its floor is
    // larger, or where none passed before.
    fn better(self, floor: u64, p: u64) -> Best
        ensures { Better self.best floor p result }
    {
        match self.best {
            Some(best) if floor <= best.floor => best,
            _ => Best { floor, p },
        }
    }
}

impl<'a> Sweep<'a> {
    ghost use Rattle.std.specs.Prelude.{IfOk};
    ghost use Rattle.refusals.specs.Number.{number_in};
    ghost use Rattle.sweeps.specs.Sweep.{sweep_refusal, passing, best_of};
    ghost use Rattle.sweeps.specs.Progress.{SumAt, SumBefore, SweptTo, floors, told};

    // Refusals 1, 2, those of the list, and 19, in this order.
    #[tactic(auto, unfolding(crate::specs::Sweep::sweep_refusal, crate::specs::Sweep::range_refusal))]
    pub(crate) fn accepted(
        capacity: u64,
        family: u8,
        sizes: &'a [u32],
        counts: &'a [u16],
        low: u64,
        high: u64,
    ) -> Result<Sweep<'a>, Refusal>
        ensures number { number_in result ≡ sweep_refusal capacity family sizes.now counts.now low high }
        ensures sweep { IfOk result (λ s. (s.list.capacity ≡ capacity) × (s.family ≡ family)
            × (s.list.sizes.now ≡ sizes.now) × (s.list.counts.now ≡ counts.now) × (s.low ≡ low) × (s.high ≡ high)) }
    {
        functions::accept_capacity(capacity)?;
        if !(1..=5).contains(&family) {
            return Err(Refusal::Family);
        }
        let list = lists::counted(capacity, sizes, counts)?;
        if !(low..=low.saturating_add(WIDEST)).contains(&high) {
            return Err(Refusal::ParameterRange);
        }
        Ok(Sweep {
            list,
            low,
            high,
            family,
        })
    }

    // The sum of a step of the family: in family 1 carried on from that of p - 1, if that is known.
    fn sum_of(self, step: FamilyStep, before: Option<u64>) -> u64
        requires { (step.capacity ≡ self.list.capacity) × (step.family ≡ self.family) × (step.q ≡ 0)
            × SumBefore self step.p before }
        ensures { SumAt self.entry step.p result }
    {
        let list = self.list;
        match before {
            Some(before) if step.family == 1 => step.carry(before, list.sizes, list.counts),
            _ => step.sum(list.sizes, list.counts),
        }
    }

    // The best of the parameters before low + offset and that.
    fn turn(self, swept: Swept, offset: u64) -> Swept
        requires { SweptTo self offset swept × (offset ≤ self.high - self.low) }
        ensures { SweptTo self.entry (offset + 1) result }
    {
        let p = self.low + offset;
        match functions::judge_family(self.list.capacity, self.family, p, 0) {
            Ok(step) => {
                let sum = self.sum_of(step, swept.sum);
                let floor = functions::round_up(sum, step.scale);
                Swept {
                    best: Some(swept.better(floor, p)),
                    sum: Some(sum),
                }
            }
            Err(_) => Swept { sum: None, ..swept },
        }
    }

    // The best parameter of the range: refusal 20 where none passes.
    pub(crate) fn best(self) -> Result<Best, Refusal>
        ensures { told result ≡ best_of (floors self.entry)
            (passing self.entry.list.capacity self.entry.family self.entry.low (suc (self.entry.high - self.entry.low))) }
    {
        let mut swept = Swept {
            best: None,
            sum: None,
        };
        // By the offset: over `self.low..=self.high` families 2 and 4 take up to 1.15 times as long.
        for offset in 0..=self.high - self.low {
            swept = self.turn(swept, offset);
        }
        swept.best.ok_or(Refusal::NoParameterPasses)
    }
}
