// The kinds of a job, by their numbers in its bytes, and the operations that take them.
ghost use Rattle.std.specs.Prelude.{◌≡◌};
ghost use Rattle.jobs.specs.Kinds.{kind_number, takes, least_of, KindOf};
ghost use Rattle.jobs.specs.Job.{own_places};

use fields::{FLOOR_KIND, MOST_BLOCKS, MOST_ROWS, ROWS_KIND};
use refusals::Refusal;

const CUT_KIND: u8 = 2;

#[derive(Clone, Copy, Debug, PartialEq, Eq)]
pub enum JobKind {
    Floor,
    Cut,
    Rows,
}

impl JobKind {
    // The least number in a list: a floor's sizes are from 1 on, coefficients from 0.
    #[tactic(auto, unfolding(crate::specs::Kinds::least_of))]
    pub(crate) fn least(self) -> u64
        ensures { result ≡ least_of (kind_number self) }
    {
        match self {
            JobKind::Floor => 1,
            JobKind::Cut | JobKind::Rows => 0,
        }
    }
}

// An operation on jobs, which takes some of the kinds.
#[derive(Clone, Copy, Debug, PartialEq, Eq)]
pub enum Operation {
    Floors,
    Cuts,
}

impl Operation {
    // The kind with a number, where the operation takes it.
    #[tactic(auto, unfolding(crate::specs::Kinds::takes))]
    pub(crate) fn kind(self, number: u8) -> Result<JobKind, Refusal>
        ensures { KindOf self number result }
    {
        match (self, number) {
            (Operation::Floors, FLOOR_KIND) => Ok(JobKind::Floor),
            (Operation::Cuts, CUT_KIND) => Ok(JobKind::Cut),
            (Operation::Cuts, ROWS_KIND) => Ok(JobKind::Rows),
            _ => Err(Refusal::JobKind),
        }
    }

    pub fn takes(self, number: u8) -> bool
        ensures { result ≡ takes self number }
    {
        self.kind(number).is_ok()
    }

    // The least places of the buffer that it alone has: of block floors, or of scales.
    #[tactic(auto, unfolding(crate::specs::Job::own_places))]
    pub(crate) fn places(self) -> usize
        ensures { result ≡ own_places self }
    {
        match self {
            Operation::Floors => MOST_BLOCKS,
            Operation::Cuts => MOST_ROWS,
        }
    }
}
