// The shortest operation for C.
#![tactic(auto)]

ghost use Rattle.shortest.specs.Shortest.{ShortestAnswered};

use shortest::ShortestAnswer;

#[unsafe(no_mangle)]
pub extern "C" fn windowfloor_shortest(
    table: &[u32],
    working: &mut [u64],
    second: &mut [u64],
    list: &mut [u32],
) -> ShortestAnswer
    ensures { ShortestAnswered table.now working.old second.old list.old result
        working.new second.new list.new }
{
    shortest::windowfloor_shortest(table, working, second, list)
}
