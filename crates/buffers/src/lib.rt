// Buffers of the case programs: what they hold before a call, and checksums of them after it.
#![tactic(auto)]

ghost use Rattle.std.specs.Prelude.{◌≡◌, ℕ, ◌+◌, ◌*◌, ◌%◌, ◌^◌, ◌<◌, ◌≤◌, EachIndex, length, map, min, take, slice_index};
ghost use Rattle.std.specs.List.{HoldsAt};
ghost use Rattle.buffers.specs.Checksum.{checksum, with_value};

const TWO_TO_32: u64 = 4_294_967_296;

pub fn at_most(value: u64, limit: usize) -> usize
    ensures within { result ≤ limit }
    ensures value { result ≡ min value limit }
{
    value.min(limit as u64) as usize
}

// The front of a buffer: so many places, or all where it has fewer.
pub fn front<T>(buffer: &mut [T], places: u64) -> &mut [T]
    ensures size { length result.now ≡ min places (length buffer.old) }
    ensures content { result.now ≡ take places buffer.old }
{
    let count = at_most(places, buffer.len());
    &mut buffer[..count]
}

// Two functions: one for both widths would need a trait with the two moduli, which is longer.
pub fn low_byte(value: u64) -> u8
    ensures { result ≡ value % 256 }
{
    (value % 256) as u8
}

pub fn low_bits(value: u64) -> u32
    ensures { result ≡ value % 2 ^ 32 }
{
    (value % TWO_TO_32) as u32
}

// Place i becomes what is made of first + i * step, mod 2^32.
fn fill_by<T: Drop, F: Fn(u32) -> T>(places: &mut [T], first: u32, step: u32, make: F)
    requires { F.IsAlwaysCallable make }
    ensures { (i : ℕ) → i < length places.new → HoldsAt (λ made. F.post make ((first + i * step) % 2 ^ 32) made) places.new i }
{
    let mut value = first;
    for place in places.iter_mut() {
        *place = make(value);
        value = value.wrapping_add(step);
    }
}

// Place i becomes first + i * step, mod 2^32.
pub fn fill(places: &mut [u32], first: u32, step: u32)
    ensures { EachIndex places.new (λ i. slice_index places.new i ≡ (first + i * step) % 2 ^ 32) }
{
    fill_by(places, first, step, |value| value)
}

// Place i becomes first + i * step, mod 2^16.
pub fn fill_halves(places: &mut [u16], first: u32, step: u32)
    ensures { EachIndex places.new (λ i. slice_index places.new i ≡ (first + i * step) % 65536) }
{
    fill_by(places, first, step, |value| (value % 65_536) as u16)
}

// Place i becomes number i, mod 2^16, as far as there are numbers.
pub fn put_halves(places: &mut [u16], numbers: &[u32])
    ensures { EachIndex places.new (λ i. i < length numbers.now → slice_index places.new i ≡ slice_index numbers.now i % 65536) }
{
    for (i, place) in places.iter_mut().enumerate() {
        if numbers.len() <= i {
            return;
        }
        *place = (numbers[i] % 65_536) as u16;
    }
}

// Place i becomes 7,000,000,000 + i.
pub fn fill_working(working: &mut [u64])
    ensures { EachIndex working.new (λ i. slice_index working.new i ≡ 7000000000 + i) }
{
    for (i, place) in working.iter_mut().enumerate() {
        *place = 7_000_000_000 + i as u64;
    }
}

// A checksum with one more value, mod 2^32. The value goes in mod a prime, so that its high half
// counts too.
fn with_value(sum: u64, value: u64) -> u64
    ensures { result ≡ with_value sum value }
{
    (sum % TWO_TO_32 * 31 + value % 4_294_967_291) % TWO_TO_32
}

// The checksum of values of any width.
pub fn checksum<T: Copy + Into<u64>>(values: &[T]) -> u64
    ensures { (number : T → ℕ) → ((x : T) (n : ℕ) → T.converts x n → n ≡ number x) → result ≡ checksum (map number values.now) }
{
    values
        .iter()
        .fold(0, |sum, value| with_value(sum, (*value).into()))
}

#[cfg(test)]
mod tests {
    use super::*;

    #[test]
    fn sums_values_of_any_width(rt: HostRuntime) {
        assert_eq!(rt; checksum(&[1u32, 2]), 33);
        assert_eq!(rt; checksum(&[1u16, 2]), 33);
        assert_eq!(rt; checksum(&[4_294_967_296u64]), 5);
    }

    #[test]
    fn lends_a_front(rt: HostRuntime) {
        let mut buffer = [7u32, 8, 9];
        assert_eq!(rt; &*front(&mut buffer, 2), [7, 8].as_slice());
        assert_eq!(rt; &*front(&mut buffer, 5), [7, 8, 9].as_slice());
        front(&mut buffer, 1).fill(0);
        assert_eq!(rt; buffer, [0, 8, 9]);
    }

    #[test]
    fn fills_places(rt: HostRuntime) {
        let mut numbers = [0u32; 3];
        fill(&mut numbers, u32::MAX, 2);
        assert_eq!(rt; numbers, [u32::MAX, 1, 3]);
        let mut halves = [0u16; 2];
        fill_halves(&mut halves, 70_000, 1);
        assert_eq!(rt; halves, [4_464, 4_465]);
        put_halves(&mut halves, &[70_001]);
        assert_eq!(rt; halves, [4_465, 4_465]);
        let mut working = [0u64; 2];
        fill_working(&mut working);
        assert_eq!(rt; working, [7_000_000_000, 7_000_000_001]);
    }
}
