// The hand-over program: reads a job from standard input and prints its floor or its cut.
#![tactic(auto)]

ghost use Rattle.std.specs.Prelude.{suc, IfSome, IsErrOf, OnOk, take};
ghost use Rattle.std.specs.Io.KnownBytes.{Appends, Keeps};
ghost use Rattle.fields.specs.Grammar.{most_bytes};
ghost use Rattle.report.specs.Text.{hand_over_text};

use std::fmt;
use std::io::{self, Read, Write};

// One byte more than a job may have, so that a longer one is refused and never cut short.
const MOST_READ: usize = fields::MOST_BYTES + 1;

// More places than any text has bytes.
const TEXT_PLACES: usize = 65_536;

// Why the text for a job is not printed, or not all of it.
#[derive(Clone, Copy)]
enum Failure {
    Unreadable,
    Unwritable,
}

impl fmt::Display for Failure {
    fn fmt<W: fmt::Write>(&self, f: &mut fmt::Formatter<W>) -> fmt::Result {
        match self {
            Failure::Unreadable => write!(f, "standard input cannot be read"),
            Failure::Unwritable => write!(f, "standard output cannot be written"),
        }
    }
}

// Prints the text for a job, whole.
fn print_answer<W: Write>(out: &mut W, job: &[u8]) -> io::Result<()>
    ensures { OnOk result (Appends (W.contents out.old) (W.contents out.new) (hand_over_text job.now)) }
{
    let mut text = [0u8; TEXT_PLACES];
    let n = report::hand_over(job, &mut text);
    out.write_all(&text[..n])
}

// Reads a job to its end, or one byte more than it may have, and prints the text for it.
fn hand_over<R: Read, W: Write>(reader: &mut R, out: &mut W) -> Result<(), Failure>
    ensures printed { OnOk result (IfSome (R.remaining reader.old) (λ xs.
        Appends (W.contents out.old) (W.contents out.new) (hand_over_text (take (suc most_bytes) xs)))) }
    ensures unread { IsErrOf result Failure.Unreadable → Keeps (W.contents out.old) (W.contents out.new) }
{
    let mut job = [0u8; MOST_READ];
    let n = input::read_full(reader, &mut job).map_err(|_| Failure::Unreadable)?;
    print_answer(out, &job[..n]).map_err(|_| Failure::Unwritable)
}

fn main(rt: HostRuntime) {
    if let Err(failure) = hand_over(&mut rt.stdin(), &mut rt.stdout()) {
        let _ = eprintln!(rt; "windowfloor: {failure}");
    }
}

#[cfg(test)]
mod tests {
    use super::*;
    use std::io::ErrorKind;
    use std::test::Fail;

    // Can be neither read nor written.
    #[derive(Drop)]
    struct Broken;

    impl Read for Broken {
        fn read(&mut self, _buf: &mut [u8]) -> io::Result<usize> {
            Err(io::Error::from(ErrorKind::Other))
        }
    }

    impl Write for Broken {
        fn write(&mut self, _buf: &[u8]) -> io::Result<usize> {
            Err(io::Error::from(ErrorKind::Other))
        }

        fn flush(&mut self) -> io::Result<()> {
            Ok(())
        }
    }

    #[test]
    fn says_what_failed(rt: HostRuntime) -> Result<(), Fail> {
        let alloc = rt.alloc();
        let mut printed = Vec::new(alloc);
        let unread = hand_over(&mut Broken, &mut printed);
        assert!(rt; matches!(unread, Err(Failure::Unreadable)));
        assert!(rt; printed.is_empty());
        let mut no_job: &[u8] = b"";
        let unwritten = hand_over(&mut no_job, &mut Broken);
        assert!(rt; matches!(unwritten, Err(Failure::Unwritable)));
        let unreadable = format!(in alloc; "{}", Failure::Unreadable)?;
        assert_eq!(rt; unreadable.as_str(), "standard input cannot be read");
        let unwritable = format!(in alloc; "{}", Failure::Unwritable)?;
        assert_eq!(rt; unwritable.as_str(), "standard output cannot be written");
        Ok(())
    }
}
