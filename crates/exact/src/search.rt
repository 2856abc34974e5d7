// The search for a packing into the fewest windows: copies in list order, each into a window in use or
// the next one.
ghost use Rattle.std.specs.Prelude.{◌≡◌, suc, max, ◌≤◌, ◌<◌, ◌∷◌};
ghost use Rattle.functions.specs.Words.{total};
ghost use Rattle.functions.specs.Families.{◌up◌};
ghost use Rattle.exact.specs.Exact.{FewestWritten};
ghost use Rattle.exact.specs.Expand.{Measurable, Searchable};
ghost use Rattle.exact.specs.Search.{Seek, TriedIn, Searched};

use crate::list::MOST_COPIES;

// The fewest windows so far once the first copy was tried in window b, and the others behind it. What is
// written then is a packing that is better than the best so far, if there is one.
//
// Of the arguments only `least` never changes, so a struct of them would be made anew at each call: no plainer.
#[cycle(place_try_window)]
fn try_window(
    size: u64,
    others: &[u64],
    least: usize,
    best: usize,
    used: usize,
    b: usize,
    rooms: &mut [u64; MOST_COPIES],
    windows: &mut [u32],
) -> usize
    requires { Seek (size ∷ others.now) used rooms.old windows.old × (b ≤ used)
        × (max used (suc b) < best) }
    ensures { TriedIn (size ∷ others.now) least best used b rooms.old windows.old result
        rooms.new windows.new }
{
    let room = rooms[b];
    if room < size {
        return best;
    }
    rooms[b] = room - size;
    // Each copy has its place, so the buffer is taken by index: with `split_first_mut` it is tested for a first
    // place at each call, 7% slower on the hardest lists.
    let fewer = place(
        others,
        least,
        best,
        used.max(b + 1),
        rooms,
        &mut windows[1..],
    );
    rooms[b] = room;
    if best <= fewer {
        return best;
    }
    windows[0] = b as u32;
    fewer
}

// The fewest windows so far once the copies were tried in the windows in use, `used` of them, and in new
// ones, in every way but for names. No new one is opened where as many would be in use as the best so far has,
// and no packing is looked for where the best so far is into `least`, or into those in use. What is written
// then is a packing that is better than the best so far, if there is one. Before one is found, `best` is one
// more than the copies, which no packing needs.
#[cycle(place_try_window)]
fn place(
    copies: &[u64],
    least: usize,
    best: usize,
    used: usize,
    rooms: &mut [u64; MOST_COPIES],
    windows: &mut [u32],
) -> usize
    requires { Seek copies.now used rooms.old windows.old × (used < best) }
    ensures { Searched copies.now least best used rooms.old windows.old result
        rooms.new windows.new }
{
    let Some((&size, others)) = copies.split_first() else {
        return used;
    };
    let enough = least.max(used);
    let mut fewest = best;
    for b in 0..used {
        let fewer = try_window(size, others, least, fewest, used, b, rooms, windows);
        if fewer < fewest {
            if fewer <= enough {
                return fewer;
            }
            fewest = fewer;
        }
    }
    if fewest <= used + 1 {
        return fewest;
    }
    try_window(size, others, least, fewest, used, used, rooms, windows)
}

// The copies' total, divided by the capacity and rounded up: no packing uses fewer windows.
fn least_windows(capacity: u64, copies: &[u64]) -> usize
    requires { Measurable capacity copies.now }
    ensures { result ≡ (total copies.now up capacity) }
{
    let sum = copies.iter().sum();
    functions::round_up(sum, capacity) as usize
}

// The fewest windows of the copies; which copy is in which is written.
pub(crate) fn fewest(capacity: u64, copies: &[u64], windows: &mut [u32]) -> usize
    requires { Searchable capacity copies.now windows.old }
    ensures { FewestWritten capacity copies.now windows.old result windows.new }
{
    let least = least_windows(capacity, copies);
    let mut rooms = [capacity; MOST_COPIES];
    place(copies, least, copies.len() + 1, 0, &mut rooms, windows)
}
