// The steps of a job, judged in order at the capacity that each gets, and lists of sizes before them.
//
// `checked` says that these steps' tables passed 8 to 11 before, at an earlier row. It stays beside `working` and
// `list` in each call: a struct with the two `&mut` would say in each contract that it keeps its references.
ghost use Rattle.std.specs.Prelude.{◌≡◌, true, length};
ghost use Rattle.tables.specs.Table.{table_capacity};
ghost use Rattle.fields.specs.Bytes.{halfwords, words};
ghost use Rattle.fields.specs.Parts.{on_table};
ghost use Rattle.fields.specs.Within.{TableWithin, StepWithin};
ghost use Rattle.fields.specs.Record.{step_in, steps_in};
ghost use Rattle.chains.specs.Chain.{contents_refusal, TablesPass};
ghost use Rattle.chains.specs.Judge.{StepJudged, judge_chain, judge_list, CheckRoom, Judged};

use crate::{LIST_PLACES, Refused, SizeList, list};
use fields::{JobStep, JobSteps, StepFunction};
use refusals::Refusal;

// The entries of a table decoded and checked: the step judged at its table's own capacity.
fn judge_entries(
    entries: &[u8],
    working: &mut [u64; tables::MOST_ENTRIES],
    list: &mut [u32; LIST_PLACES],
) -> Result<u64, Refused>
    requires { TableWithin entries.now }
    ensures { StepJudged (table_capacity (words entries.now)) (on_table (words entries.now))
        list.old result list.new }
{
    let mut places = [0u32; tables::MOST_ENTRIES];
    let table = &mut places[..entries.len() / 4];
    fields::words::decode_words(entries, table);
    tables::check(table, &mut working[..], &mut list[..])?;
    Ok(u64::from(table[table.len() - 1]))
}

// A table step at a capacity: 18 is told by the table's length, before anything of it is read or
// written. Where `checked`, only the last entry is read.
fn judge_table_step(
    entries: &[u8],
    capacity: u64,
    checked: bool,
    working: &mut [u64; tables::MOST_ENTRIES],
    list: &mut [u32; LIST_PLACES],
) -> Result<u64, Refused>
    requires { TableWithin entries.now
        × (checked ≡ true → contents_refusal (on_table (words entries.now)) ≡ 0) }
    ensures judged { StepJudged capacity (on_table (words entries.now))
        list.old result list.new }
    ensures untouched { (table_capacity (words entries.now) ≡ capacity → ⊥)
        → working.new ≡ working.old }
{
    let top = entries.len() / 4 - 1;
    if top as u64 != capacity {
        return Err(Refused::from(Refusal::TableCapacity));
    }
    if checked {
        return Ok(fields::words::word_at(entries, 4 * top));
    }
    judge_entries(entries, working, list)
}

// A step at a capacity, and its scale.
fn judge_step(
    step: JobStep<'_>,
    capacity: u64,
    checked: bool,
    working: &mut [u64; tables::MOST_ENTRIES],
    list: &mut [u32; LIST_PLACES],
) -> Result<u64, Refused>
    requires { StepWithin step × (checked ≡ true → contents_refusal (step_in step) ≡ 0) }
    ensures { StepJudged capacity (step_in step.entry) list.old result list.new }
{
    match step.function {
        StepFunction::Family { family, p, q } => {
            let accepted = functions::judge_family(capacity, family, p, q)?;
            Ok(accepted.scale)
        }
        StepFunction::Table(entries) => judge_table_step(entries, capacity, checked, working, list),
    }
}

// The steps in order. The last clause is for the caller, who has the array from `first_chunk_mut` and learns
// by this clause that the list is still as long.
fn judge_steps(
    steps: JobSteps<'_>,
    capacity: u64,
    checked: bool,
    working: &mut [u64; tables::MOST_ENTRIES],
    list: &mut [u32; LIST_PLACES],
) -> Result<(), Refused>
    requires { checked ≡ true → TablesPass (steps_in steps) }
    ensures judged { Judged (judge_chain capacity 0 (steps_in steps.entry))
        list.old result list.new }
    ensures length { length list.new ≡ length list.old }
{
    let mut present = capacity;
    for (i, step) in steps.items[..steps.count].iter().enumerate() {
        present = judge_step(*step, present, checked, working, list).map_err(|refused| Refused {
            step: Some((i + 1) as u64),
            ..refused
        })?;
    }
    Ok(())
}

// A list of sizes: 1, 17, 22, 23, and then the steps in order.
pub fn judge_list(
    steps: JobSteps<'_>,
    checked: bool,
    size_list: SizeList<'_>,
    working: &mut [u64],
    list: &mut [u32],
) -> Result<(), Refused>
    requires { (checked ≡ true → TablesPass (steps_in steps))
        × CheckRoom working.old list.old }
    ensures { Judged (judge_list size_list.entry.least size_list.entry.capacity
        (words size_list.entry.sizes.now) (halfwords size_list.entry.counts.now)
        size_list.entry.divided (steps_in steps.entry))
        list.old result list.new }
{
    list::refuse_list(size_list)?;
    // The room that is asked for: the arrays' types keep it.
    let working = working.first_chunk_mut().unwrap();
    let list = list.first_chunk_mut().unwrap();
    judge_steps(steps, size_list.capacity, checked, working, list)
}
