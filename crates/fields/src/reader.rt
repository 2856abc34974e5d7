// The field reader: the header and the value of the first field of a job's rest, and what is behind it.
ghost use Rattle.std.specs.Prelude.{◌≡◌};
ghost use Rattle.fields.specs.Bytes.{header_of, field_value, field_rest};

use crate::{HEADER, Header};

// The header of the first field, where header and value are within the rest.
#[tactic(auto, unfolding(crate::specs::Bytes::header_of, crate::specs::Bytes::field_within, crate::specs::Bytes::field_tag, crate::specs::Bytes::field_length, crate::specs::Bytes::halfword))]
pub(crate) fn read_header(rest: &[u8]) -> Option<Header>
    ensures { result ≡ header_of rest.now }
{
    let [tag, high, low, behind @ ..] = rest else {
        return None;
    };
    let length = usize::from(u16::from_be_bytes([*high, *low]));
    if behind.len() < length {
        return None;
    }
    Some(Header { tag: *tag, length })
}

// The value of the first field, as a part of the job; the empty part at the end where header or
// value runs past it.
pub(crate) fn field_value(rest: &[u8], header: Option<Header>) -> &[u8]
    requires { header ≡ header_of rest.now }
    ensures { result.now ≡ field_value rest.now }
{
    match header {
        Some(header) => &rest[HEADER..HEADER + header.length],
        None => &rest[rest.len()..],
    }
}

// The rest of the job from the next field on.
pub(crate) fn field_rest(rest: &[u8], header: Option<Header>) -> &[u8]
    requires { header ≡ header_of rest.now }
    ensures { result.now ≡ field_rest rest.now }
{
    match header {
        Some(header) => &rest[HEADER + header.length..],
        None => &rest[rest.len()..],
    }
}
