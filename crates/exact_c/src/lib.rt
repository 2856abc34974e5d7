// The exact operation for C.
#![tactic(auto)]

ghost use Rattle.exact.specs.Exact.{ExactAnswered};

use exact::ExactAnswer;

#[unsafe(no_mangle)]
pub extern "C" fn windowfloor_exact(
    capacity: u64,
    sizes: &[u32],
    counts: &[u16],
    windows: &mut [u32],
) -> ExactAnswer
    ensures { ExactAnswered capacity sizes.now counts.now windows.old result
        windows.new }
{
    exact::windowfloor_exact(capacity, sizes, counts, windows)
}
