// Decimal numbers in a text, as the case programs read them.
#![tactic(auto)]

ghost use Rattle.std.specs.Prelude.{◌≡◌, ℕ, ◌↔◌, [], IsTrue, ◌≤◌, ◌<◌, length, slice_index, EachIndex};
ghost use Rattle.decimal.specs.Reading.{with_digit, number, behind, behind_all, behind_empty_lines};

use std::marker::Model;

// What is left of a text, from which numbers are read.
#[derive(Clone, Drop)]
pub struct Numbers<'a> {
    text: &'a [u8],
}

// Contracts see the bytes that are left.
impl<'a> Model for Numbers<'a> {
    ghost use Rattle.std.specs.Prelude.{ℕ, List};

    ghost Value = { List ℕ };

    ghost view = { λ n. n.text.now };
}

// The value with one more decimal digit; a value that would not fit stays.
fn with_digit(value: u64, digit: u8) -> u64
    ensures { result ≡ with_digit value digit }
{
    value
        .checked_mul(10)
        .and_then(|tens| tens.checked_add(u64::from(digit)))
        .unwrap_or(value)
}

impl<'a> Numbers<'a> {
    pub fn new(text: &'a [u8]) -> Self
        ensures { result ≡ text.now }
    {
        Numbers { text }
    }

    pub fn is_done(&self) -> bool
        ensures { IsTrue result ↔ self.now ≡ [] }
    {
        self.text.is_empty()
    }

    // Passes the ends of lines that come next. This loop and that of `next_number` go over what is left of the
    // text: an iterator's type would be longer.
    pub fn skip_empty_lines(&mut self)
        ensures rest { self.new ≡ behind_empty_lines self.old }
        ensures forward { length self.new ≤ length self.old }
    {
        while let Some((b'\n', rest)) = self.text.split_first() {
            self.text = rest;
        }
    }

    // Reads digits up to and with the first byte below '0'; 0 behind the end.
    pub fn next_number(&mut self) -> u64
        ensures value { result ≡ number self.old }
        ensures rest { self.new ≡ behind self.old }
        ensures forward { length self.new ≤ length self.old }
        ensures onward { 0 < length self.old → length self.new < length self.old }
    {
        let mut value = 0;
        while let Some((byte, rest)) = self.text.split_first() {
            self.text = rest;
            if *byte < b'0' {
                return value;
            }
            value = with_digit(value, (*byte - b'0') % 10);
        }
        value
    }

    // The next numbers, as many as are wanted.
    pub fn next_numbers<const N: usize>(&mut self) -> [u64; N]
        ensures values { EachIndex result (λ i. slice_index result i ≡ number (behind_all i self.old)) }
        ensures rest { self.new ≡ behind_all N self.old }
        ensures forward { length self.new ≤ length self.old }
        ensures onward { 0 < N → 0 < length self.old → length self.new < length self.old }
    {
        let mut numbers = [0; N];
        for number in numbers.iter_mut() {
            *number = self.next_number();
        }
        numbers
    }
}

#[cfg(test)]
mod tests {
    use super::*;

    #[test]
    fn reads_numbers(rt: HostRuntime) {
        let mut numbers = Numbers::new(b"\n\n10 340\n7");
        numbers.skip_empty_lines();
        assert_eq!(rt; numbers.next_number(), 10);
        assert_eq!(rt; numbers.next_numbers::<3>(), [340, 7, 0]);
        assert!(rt; numbers.is_done());
    }

    #[test]
    fn keeps_what_fits(rt: HostRuntime) {
        let mut numbers = Numbers::new(b"18446744073709551615 18446744073709551616 ");
        assert_eq!(rt; numbers.next_number(), u64::MAX);
        assert_eq!(rt; numbers.next_number(), 1_844_674_407_370_955_161);
    }
}
