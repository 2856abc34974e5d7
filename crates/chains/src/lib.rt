// Chains of steps: judged in order at the capacity that each gets, and applied to lists of sizes.
#![tactic(auto)]

pub mod apply;
pub mod judge;
pub mod list;

ghost use Rattle.std.specs.Prelude.{◌≡◌, None};

use refusals::Refusal;

// The places of a list that overshoots a table: no table has a longer one.
pub const LIST_PLACES: usize = tables::MOST_ENTRIES - 1;

// What refuses a job: the refusal, the places of the row and of the step where one is refused, and the
// length of its list.
#[derive(Clone, Copy)]
pub struct Refused {
    pub refusal: Refusal,
    pub row: Option<u64>,
    pub step: Option<u64>,
    pub length: u64,
}

impl From<Refusal> for Refused {
    ghost from_gives = { λ refusal refused.
        refused ≡ record { refusal = refusal; row = None; step = None; length = 0 } };

    fn from(refusal: Refusal) -> Refused {
        Refused {
            refusal,
            row: None,
            step: None,
            length: 0,
        }
    }
}

impl From<tables::Refused> for Refused {
    ghost from_gives = { λ table refused.
        refused ≡ record { refusal = table.refusal; row = None; step = None; length = table.length } };

    fn from(table: tables::Refused) -> Refused {
        Refused {
            length: table.length as u64,
            ..Refused::from(table.refusal)
        }
    }
}

// A list of sizes from `least` on at a capacity, by the bytes of the sizes and of their counts; `divided`
// says whether its blocks divide it, which a test told before and no value goes with.
#[derive(Clone, Copy)]
pub struct SizeList<'a> {
    pub capacity: u64,
    pub least: u64,
    pub sizes: &'a [u8],
    pub counts: &'a [u8],
    pub divided: bool,
}
