// The list itself, by halves of its sizes.
ghost use Rattle.std.specs.Prelude.{◌-◌, ◌≤◌, ◌<◌, length};
ghost use Rattle.shortest.specs.Rows.{Room, GreatestEntry};
ghost use Rattle.shortest.specs.Halves.{PartsWritten, GreatestList};

use crate::rows;

// The first size below a bound with the greatest image.
fn greatest(table: &[u32], places: usize) -> usize
    requires { (1 ≤ places) × (places ≤ length table.now) }
    ensures { GreatestEntry table.now places result }
{
    let mut size = 0;
    for y in 1..places {
        if table[size] < table[y] {
            size = y;
        }
    }
    size
}

// Writes half of the sizes for a part of the capacity, and the others for the rest of it.
#[cycle(put_put_halves)]
pub(crate) fn put_halves(
    table: &[u32],
    first: usize,
    fewer: &mut [u64],
    row: &mut [u64],
    list: &mut [u32],
)
    requires room { Room table.now fewer.old row.old }
    requires within { first < length row.old }
    ensures { PartsWritten table.now (length list.old) (length row.old - 1) first list.new }
{
    let rest = row.len() - first;
    let (half, others) = list.split_at_mut(list.len() / 2);
    put(table, &mut fewer[..first + 1], &mut row[..first + 1], half);
    put(table, &mut fewer[..rest], &mut row[..rest], others);
}

// Writes a list with the greatest total of images that as many sizes reach. The capacity is that of the rows.
#[cycle(put_put_halves)]
fn put(table: &[u32], fewer: &mut [u64], row: &mut [u64], list: &mut [u32])
    requires { Room table.now fewer.old row.old }
    ensures { GreatestList table.now (length row.old - 1) list.new }
{
    if list.is_empty() {
        return;
    }
    if list.len() == 1 {
        list[0] = greatest(table, row.len()) as u32;
        return;
    }
    let first = rows::halves(table, list.len(), fewer, row);
    put_halves(table, first, fewer, row, list);
}
