// The table check: whether a table of images is dual-feasible, and a counterexample if not.
#![tactic(auto)]

mod bests;
mod fill;
mod form;

ghost use Rattle.std.specs.Prelude.{◌≡◌, length, take};
ghost use Rattle.refusals.specs.Number.{number_of};
ghost use Rattle.tables.specs.Check.{table_answer, working_after, list_after};
ghost use Rattle.tables.specs.Told.{told};
ghost use Rattle.tables.specs.Promise.{Overshoots, AcceptedExactly};

use bests::Bests;
pub use fill::fill_bests;
pub use form::check_form;
use refusals::Refusal;

// The most entries of a table.
pub const MOST_ENTRIES: usize = 2_048;

// What refuses a table, and the length of the list that is left behind.
#[derive(Clone, Copy)]
pub struct Refused {
    pub refusal: Refusal,
    // At 11 the counterexample's. Elsewhere no list is left: 0, as of an empty one.
    pub length: usize,
}

impl From<Refusal> for Refused {
    ghost from_gives = { λ refusal refused. refused ≡ record { refusal = refusal; length = 0 } };

    fn from(refusal: Refusal) -> Refused {
        Refused { refusal, length: 0 }
    }
}

// The answer to a table check, as C reads it: the number that refuses it, or 0; at 11 the counterexample's length.
#[repr(C)]
#[derive(Clone, Copy)]
pub struct TableAnswer {
    pub number: u64,
    pub length: u64,
}

impl From<Refused> for TableAnswer {
    ghost from_gives = { λ refused answer.
        answer ≡ record { number = number_of refused.refusal; length = refused.length } };

    fn from(refused: Refused) -> TableAnswer {
        TableAnswer {
            number: u64::from(refused.refusal),
            length: refused.length as u64,
        }
    }
}

// The table check. An `Err` says what refuses the table, and how long the list is that it leaves.
pub fn check(table: &[u32], working: &mut [u64], list: &mut [u32]) -> Result<(), Refused>
    ensures told { told result ≡ table_answer table.now (length working.old) (length list.old) }
    ensures working { working.new ≡ working_after table.now working.old list.old }
    ensures list { list.new ≡ list_after table.now working.old list.old }
{
    form::check_form(table, working.len(), list.len())?;
    fill::fill_bests(table, working);
    let last = table.len() - 1;
    if working[last] <= u64::from(table[last]) {
        return Ok(());
    }
    let bests = Bests {
        table,
        totals: &working[..table.len()],
    };
    Err(Refused {
        refusal: Refusal::Overshoots,
        length: bests.write_counterexample(list),
    })
}

// The table check, as C calls it.
pub fn windowfloor_table_check(table: &[u32], working: &mut [u64], list: &mut [u32]) -> TableAnswer
    ensures answer { result ≡ table_answer table.now (length working.old) (length list.old) }
    ensures working { working.new ≡ working_after table.now working.old list.old }
    ensures list { list.new ≡ list_after table.now working.old list.old }
    ensures overshoots { result.number ≡ 11 → Overshoots table.now (take result.length list.new) }
    ensures exactly { AcceptedExactly table.now (length working.old)
        (length list.old) result.number }
{
    match check(table, working, list) {
        Ok(()) => TableAnswer {
            number: 0,
            length: 0,
        },
        Err(refused) => TableAnswer::from(refused),
    }
}
