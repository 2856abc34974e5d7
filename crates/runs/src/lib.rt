// Lists and tables in a text, as the case programs read them, in decimal. A list is n k and k runs, and has n
// places. A run is a count of places and the numbers that say what they hold; those of the next run come behind
// them, and what does not fit is ignored. A table is s k and k pairs: entry i is i * s, or the value of the last pair
// (i, value), and a pair with another place is ignored.
#![tactic(auto)]

ghost use Rattle.std.specs.Prelude.{◌≡◌, ◌≤◌, ◌<◌, length, min};
ghost use Rattle.decimal.specs.Reading.{number};
ghost use Rattle.runs.specs.Forward.{ReadsForward};

use decimal::Numbers;

// The most numbers of a list, more than one of sizes may have, and the most pairs of a table.
pub const MOST_NUMBERS: usize = 2_100;

// Reads so many runs and has the numbers behind each count put into its places.
fn put_each<T, F: Fn(&mut Numbers<'_>, &mut [T])>(
    numbers: &mut Numbers<'_>,
    places: &mut [T],
    runs: usize,
    put: F,
)
    requires callable { F.IsAlwaysCallable put }
    requires forward { ReadsForward (F.post put) }
    ensures { length numbers.new ≤ length numbers.old }
{
    let mut left = places;
    for _ in 0..runs {
        let count = buffers::at_most(numbers.next_number(), left.len());
        let (run, behind) = left.split_at_mut(count);
        put(numbers, run);
        left = behind;
    }
}

// Reads a list into the front of a buffer, which has no fewer places and runs than are taken.
pub fn put_runs<'a, T, F: Fn(&mut Numbers<'_>, &mut [T])>(
    numbers: &mut Numbers<'_>,
    buffer: &'a mut [T],
    put: F,
) -> &'a mut [T]
    requires callable { F.IsAlwaysCallable put }
    requires forward { ReadsForward (F.post put) }
    ensures size { length result.now ≡ min (number numbers.old) (length buffer.old) }
    ensures forward { length numbers.new ≤ length numbers.old }
    ensures onward { 0 < length numbers.old → length numbers.new < length numbers.old }
{
    let [n, k] = numbers.next_numbers::<2>();
    let runs = buffers::at_most(k, buffer.len());
    let list = buffers::front(buffer, n);
    put_each(numbers, list, runs, put);
    list
}

// Reads a list of runs (count, first, step), of which `fill` puts the numbers from first on by step into the
// places of each.
pub fn put_list<'a, T, F: Fn(&mut [T], u32, u32)>(
    numbers: &mut Numbers<'_>,
    buffer: &'a mut [T],
    fill: F,
) -> &'a mut [T]
    requires { F.IsAlwaysCallable fill }
    ensures size { length result.now ≡ min (number numbers.old) (length buffer.old) }
    ensures forward { length numbers.new ≤ length numbers.old }
    ensures onward { 0 < length numbers.old → length numbers.new < length numbers.old }
{
    put_runs(numbers, buffer, |numbers, run| {
        let [first, step] = numbers.next_numbers::<2>();
        fill(run, buffers::low_bits(first), buffers::low_bits(step));
    })
}

// Reads a table into all places of a buffer, and of its pairs so many at most.
pub fn put_pairs(numbers: &mut Numbers<'_>, table: &mut [u32], most_pairs: usize)
    ensures { length numbers.new ≤ length numbers.old }
{
    let [s, k] = numbers.next_numbers::<2>();
    buffers::fill(table, 0, buffers::low_bits(s));
    for _ in 0..buffers::at_most(k, most_pairs) {
        let [place, value] = numbers.next_numbers::<2>();
        if let Some(entry) = table.get_mut(place as usize) {
            *entry = buffers::low_bits(value);
        }
    }
}

// Reads a table into all places of a buffer.
pub fn put_table(numbers: &mut Numbers<'_>, table: &mut [u32])
    ensures { length numbers.new ≤ length numbers.old }
{
    put_pairs(numbers, table, MOST_NUMBERS);
}

#[cfg(test)]
mod tests {
    use super::*;

    #[test]
    fn reads_lists(rt: HostRuntime) {
        let mut numbers = Numbers::new(b"6 2 2 7 0 9 5 1 3 1 2 70000 1");
        let mut buffer = [9u32; 8];
        let list = put_list(&mut numbers, &mut buffer, buffers::fill);
        assert_eq!(rt; &*list, [7, 7, 5, 6, 7, 8].as_slice());
        let mut buffer = [0u16; 8];
        let counts = put_list(&mut numbers, &mut buffer, buffers::fill_halves);
        assert_eq!(rt; &*counts, [4_464, 4_465, 0].as_slice());
        assert!(rt; numbers.is_done());
    }

    #[test]
    fn reads_a_list_of_bytes(rt: HostRuntime) {
        let mut numbers = Numbers::new(b"3 1 2 65");
        let mut buffer = [0u8; 8];
        let bytes = put_runs(&mut numbers, &mut buffer, |numbers, run| {
            run.fill(buffers::low_byte(numbers.next_number()));
        });
        assert_eq!(rt; &*bytes, b"AA\0".as_slice());
    }

    #[test]
    fn reads_a_table(rt: HostRuntime) {
        let mut numbers = Numbers::new(b"3 4 1 7 1 5 9 8 3 1 6");
        let mut table = [9u32; 4];
        put_table(&mut numbers, &mut table);
        assert_eq!(rt; table, [0, 5, 6, 1]);
        assert_eq!(rt; numbers.next_number(), 6);
    }

    #[test]
    fn reads_no_more_pairs(rt: HostRuntime) {
        let mut numbers = Numbers::new(b"3 2 1 7 2 5");
        let mut table = [9u32; 4];
        put_pairs(&mut numbers, &mut table, 1);
        assert_eq!(rt; table, [0, 7, 6, 9]);
        assert_eq!(rt; numbers.next_number(), 2);
    }
}
