// Reading, up to a bound: a buffer holds what was read, and its length is the bound.
#![tactic(auto)]

ghost use Rattle.std.specs.Prelude.{◌≡◌, ℕ, ◌<◌, IfOk, IfSome, OnErr, length, take};
ghost use Rattle.std.specs.Io.{ReadsAtMost};
ghost use Rattle.std.specs.Io.KnownBytes.{Consumes, IsAtEnd};

use std::io::{self, Read};

// Reads until the buffer is full or the input ends, and answers how many bytes stand at the buffer's start.
// A read that fails ends it with that error, also one that a signal interrupts.
pub fn read_full<R: Read>(reader: &mut R, buffer: &mut [u8]) -> io::Result<usize>
    ensures in_bounds { ReadsAtMost result buffer.new }
    ensures in_order { IfOk result (λ n. Consumes (R.remaining reader.old) (R.remaining reader.new) (take n buffer.new)) }
    ensures whole { IfOk result (λ n. n < length buffer.new → IsAtEnd (R.remaining reader.new)) }
    ensures first { IfOk result (λ n. IfSome (R.remaining reader.old) (λ xs. take n buffer.new ≡ take (length buffer.new) xs)) }
    ensures none_lost { OnErr result ((n : ℕ) × Consumes (R.remaining reader.old) (R.remaining reader.new) (take n buffer.new)) }
{
    let mut done = 0;
    // A read may give less than was asked for, and the next one goes on behind it.
    while done < buffer.len() {
        let n = reader.read(&mut buffer[done..])?;
        if n == 0 {
            return Ok(done);
        }
        done += n;
    }
    Ok(done)
}

#[cfg(test)]
mod tests {
    use super::*;
    use std::io::ErrorKind;
    use std::test::Fail;

    // Gives a byte with each read, then fails.
    #[derive(Drop)]
    struct Failing(u8);

    impl Read for Failing {
        fn read(&mut self, buf: &mut [u8]) -> io::Result<usize> {
            if self.0 == 0 || buf.is_empty() {
                return Err(io::Error::from(ErrorKind::Other));
            }
            self.0 -= 1;
            buf[0] = self.0;
            Ok(1)
        }
    }

    #[test]
    fn reads_what_fits(rt: HostRuntime) -> Result<(), Fail> {
        let mut text: &[u8] = b"abcdef";
        let mut buffer = [0u8; 4];
        assert_eq!(rt; read_full(&mut text, &mut buffer)?, 4);
        assert_eq!(rt; buffer, *b"abcd");
        assert_eq!(rt; read_full(&mut text, &mut buffer)?, 2);
        assert_eq!(rt; &buffer[..2], b"ef".as_slice());
        assert_eq!(rt; read_full(&mut text, &mut buffer)?, 0);
        Ok(())
    }

    #[test]
    fn reads_on_after_a_short_read(rt: HostRuntime) -> Result<(), Fail> {
        let mut buffer = [9u8; 3];
        assert_eq!(rt; read_full(&mut Failing(5), &mut buffer)?, 3);
        assert_eq!(rt; buffer, [4, 3, 2]);
        Ok(())
    }

    #[test]
    fn fails_with_the_read(rt: HostRuntime) {
        let mut buffer = [0u8; 3];
        assert!(rt; read_full(&mut Failing(2), &mut buffer).is_err());
    }
}
