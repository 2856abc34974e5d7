// Bytes, numbers and lists of numbers put into a buffer from a place on, as far as they fit. Each
// function answers the next place. Buffer and place stand apart: beside a `&mut` in a struct no ghost field
// can say that the place is within.
ghost use Rattle.std.specs.Prelude.{[], ◌∷◌, ◌≤◌, length};
ghost use Rattle.report.specs.Text.{decimal, values_text};
ghost use Rattle.report.specs.Put.{Put};

use itoa::Buffer;

pub(crate) fn put_byte(out: &mut [u8], at: usize, byte: u8) -> usize
    requires { at ≤ length out.old }
    ensures { Put out.old at (byte ∷ []) out.new result }
{
    if at < out.len() {
        out[at] = byte;
        return at + 1;
    }
    at
}

pub(crate) fn put_bytes(out: &mut [u8], at: usize, bytes: &[u8]) -> usize
    requires { at ≤ length out.old }
    ensures { Put out.old at bytes.now out.new result }
{
    let count = bytes.len().min(out.len() - at);
    let end = at + count;
    out[at..end].copy_from_slice(&bytes[..count]);
    end
}

// One space and the number.
pub(crate) fn put_value(out: &mut [u8], at: usize, n: u64) -> usize
    requires { at ≤ length out.old }
    ensures { Put out.old at (32 ∷ decimal n) out.new result }
{
    let mut digits = Buffer::new();
    let next = put_byte(out, at, b' ');
    put_bytes(out, next, digits.format(n).as_bytes())
}

pub(crate) fn put_values(out: &mut [u8], at: usize, values: &[u32]) -> usize
    requires { at ≤ length out.old }
    ensures { Put out.old at (values_text values.now) out.new result }
{
    let mut next = at;
    for value in values {
        next = put_value(out, next, u64::from(*value));
    }
    next
}
