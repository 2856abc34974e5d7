// The rows of a job that was read, one after the other.
ghost use Rattle.std.specs.Prelude.{◌≡◌};
ghost use Rattle.fields.specs.Record.{RowHere, RowRead, RowAhead, RowsFound};

use crate::tag::Tag;
use crate::{JobRow, reader, words};

// The row in the first field of a job's rest.
fn first_row(rest: &[u8]) -> JobRow<'_>
    requires { RowHere rest.now }
    ensures { RowRead rest.now result }
{
    let header = reader::read_header(rest);
    let value = reader::field_value(rest, header);
    JobRow {
        capacity: words::word_at(value, 0),
        coefficients: &value[4..],
        rest: reader::field_rest(rest, header),
    }
}

// The first row of a job's rest, in which fields stand. The loop goes over what is left: the contract says
// what holds for whichever fields stand there, and an iterator's contract would have to say it again.
pub fn next_row(rest: &[u8]) -> JobRow<'_>
    requires { RowAhead rest.now }
    ensures { RowsFound rest.now result }
{
    let mut ahead = rest;
    while ahead[0] != Tag::Row as u8 {
        ahead = reader::field_rest(ahead, reader::read_header(ahead));
    }
    first_row(ahead)
}
