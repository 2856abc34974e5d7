// The refusals 6 to 10 of the table check.
ghost use Rattle.std.specs.Prelude.{◌≡◌, ◌≤◌, length, OnOk};
ghost use Rattle.refusals.specs.Number.{number_in};
ghost use Rattle.tables.specs.Check.{within_limit, form_refusal, length_refusal, shape_refusal, Passed};

use crate::MOST_ENTRIES;
use refusals::Refusal;

fn within_limit(table: &[u32]) -> bool
    ensures { result ≡ within_limit table.now }
{
    table
        .iter()
        .all(|entry| u64::from(*entry) <= functions::LIMIT)
}

// Refusals 6 and 7.
#[tactic(auto, unfolding(crate::specs::Check::length_refusal))]
fn refuse_lengths(entries: usize, working: usize, list: usize) -> Result<(), Refusal>
    ensures { number_in result ≡ length_refusal entries working list }
{
    if !(2..=MOST_ENTRIES).contains(&entries) {
        return Err(Refusal::ListLength);
    }
    if working < entries || list < entries - 1 {
        return Err(Refusal::BufferTooShort);
    }
    Ok(())
}

// Refusals 8 to 10.
fn refuse_form(table: &[u32]) -> Result<(), Refusal>
    requires { 2 ≤ length table.now }
    ensures { number_in result ≡ form_refusal table.now }
{
    if table[0] != 0 {
        return Err(Refusal::FirstEntry);
    }
    if table[table.len() - 1] == 0 {
        return Err(Refusal::LastEntry);
    }
    if !within_limit(table) {
        return Err(Refusal::EntryOverLimit);
    }
    Ok(())
}

// Refusals 6 to 10, of a table and the lengths of its buffers.
pub fn check_form(table: &[u32], working: usize, list: usize) -> Result<(), Refusal>
    ensures number { number_in result ≡ shape_refusal table.now working list }
    ensures passed { OnOk result (Passed table.now working list) }
{
    refuse_lengths(table.len(), working, list)?;
    refuse_form(table)
}
