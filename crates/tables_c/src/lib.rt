// The table check for C.
#![tactic(auto)]

ghost use Rattle.std.specs.Prelude.{◌≡◌, length, take};
ghost use Rattle.tables.specs.Check.{table_answer, working_after, list_after};
ghost use Rattle.tables.specs.Promise.{Overshoots, AcceptedExactly};

use tables::TableAnswer;

#[unsafe(no_mangle)]
pub extern "C" fn windowfloor_table_check(
    table: &[u32],
    working: &mut [u64],
    list: &mut [u32],
) -> TableAnswer
    ensures answer { result ≡ table_answer table.now (length working.old) (length list.old) }
    ensures working { working.new ≡ working_after table.now working.old list.old }
    ensures list { list.new ≡ list_after table.now working.old list.old }
    ensures overshoots { result.number ≡ 11 → Overshoots table.now (take result.length list.new) }
    ensures exactly { AcceptedExactly table.now (length working.old)
        (length list.old) result.number }
{
    tables::windowfloor_table_check(table, working, list)
}
