// The greatest totals, best 0 to best C, in the working buffer.
ghost use Rattle.std.specs.Prelude.{◌≡◌, ◌≤◌, length};
ghost use Rattle.tables.specs.Table.{all_bests};
ghost use Rattle.tables.specs.Check.{TableForm, at_front};

use crate::bests::Bests;

// Writes best 0 to best C over the first places of the buffer; the others stay.
#[tactic(auto, using(crate::proofs::Filled::filled_bests))]
pub fn fill_bests(table: &[u32], working: &mut [u64])
    requires table_form { TableForm table.now }
    requires table_in_bounds { length table.now ≤ length working.old }
    ensures { working.new ≡ at_front (all_bests table.now) working.old }
{
    working[0] = 0;
    for c in 1..table.len() {
        let known = Bests {
            table,
            totals: &working[..c],
        };
        working[c] = known.next_best();
    }
}
