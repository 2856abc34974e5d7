// Numbers of a job's bytes, high byte first: read where they lie, or decoded into a list.
ghost use Rattle.std.specs.Prelude.{◌≡◌, ◌+◌, ◌*◌, ◌^◌, ◌≤◌, ◌<◌, length};
ghost use Rattle.fields.specs.Bytes.{word, words};

// The four-byte number at a place. A chunk cut out for one number would be no shorter.
#[tactic(auto, unfolding(crate::specs::Bytes::halfword, crate::specs::Bytes::word))]
pub fn word_at(bytes: &[u8], at: usize) -> u64
    requires { at + 4 ≤ length bytes.now }
    ensures { (result ≡ word bytes.now at) × (result < 2 ^ 32) }
{
    u64::from(u32::from_be_bytes([bytes[at], bytes[at + 1], bytes[at + 2], bytes[at + 3]]))
}

// Writes the numbers of the bytes into a list of as many places. They are written at their place: of a buffer
// lent by `iter_mut` through `zip` nothing is known at the loop's end.
pub fn decode_words(bytes: &[u8], out: &mut [u32])
    requires { length bytes.now ≡ 4 * length out.old }
    ensures { out.new ≡ words bytes.now }
{
    for (i, chunk) in bytes.as_chunks::<4>().0.iter().enumerate() {
        out[i] = u32::from_be_bytes(*chunk);
    }
}
