// The fewest sizes that overshoot.
ghost use Rattle.std.specs.Prelude.{◌≡◌, ◌+◌, ◌-◌, ◌*◌, ◌≤◌, MatchOption, length};
ghost use Rattle.tables.specs.Table.{table_capacity, table_scale, best};
ghost use Rattle.shortest.specs.Rows.{Room, Rows};
ghost use Rattle.shortest.specs.Halves.{AtLeast, Fewest};

use crate::rows;

// A number of sizes, and the part of the capacity for half of them.
#[derive(Clone, Copy)]
pub(crate) struct Split {
    pub sizes: usize,
    pub first: usize,
}

// Tries 2 k - 1 sizes and 2 k, by rows k - 1 and k.
fn try_two(table: &[u32], k: usize, fewer: &[u64], row: &[u64]) -> Option<Split>
    requires rows { Rows table.now k fewer.now row.now }
    requires whole { length row.now ≡ length table.now }
    requires positive { 1 ≤ k }
    requires few { k ≤ length table.now }
    requires least { AtLeast table.now (2 * k - 1) }
    ensures { MatchOption result (AtLeast table.now (2 * k + 1))
        (λ split. Fewest table.now split.sizes split.first) }
{
    let scale = u64::from(table[table.len() - 1]);
    if let Some(first) = rows::place_over(fewer, row, scale) {
        return Some(Split {
            sizes: 2 * k - 1,
            first,
        });
    }
    let first = rows::place_over(row, row, scale)?;
    Some(Split {
        sizes: 2 * k,
        first,
    })
}

// None if no list overshoots. One size and two are tried first: that takes two passes over the table, and the best totals
// of the table take thousands.
pub(crate) fn fewest(table: &[u32], fewer: &mut [u64], row: &mut [u64]) -> Option<Split>
    requires room { Room table.now fewer.old row.old }
    requires whole { length row.old ≡ length table.now }
    ensures { MatchOption result (best table.now (table_capacity table.now) ≤ table_scale table.now)
        (λ split. Fewest table.now split.sizes split.first) }
{
    rows::first_rows(table, fewer, row);
    if let Some(split) = try_two(table, 1, fewer, row) {
        return Some(split);
    }
    tables::fill_bests(table, fewer);
    let last = table.len() - 1;
    if fewer[last] <= u64::from(table[last]) {
        return None;
    }
    let mut k = 1;
    loop {
        k += 1;
        rows::next_row(table, k, fewer, row);
        if let Some(split) = try_two(table, k, fewer, row) {
            return Some(split);
        }
    }
}
