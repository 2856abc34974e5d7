// What the case programs share: they run an operation on the cases of standard input.
#![tactic(auto)]

ghost use Rattle.std.specs.Prelude.{◌≡◌, [], ◌<◌, ◌^◌, OnOk};
ghost use Rattle.cases.specs.Onward.{MovesOn, PassesSome};

use decimal::Numbers;
use std::io::{self, BufWriter, Read, Stdout, Write};

// Runs the cases of a text, one after the other. The loop goes over what is left of the text: an iterator of its
// cases would be longer.
fn run_cases<W: Write, F: Fn(&mut W, &mut Numbers<'_>) -> io::Result<()>>(
    out: &mut W,
    numbers: &mut Numbers<'_>,
    run_case: &F,
) -> io::Result<()>
    requires callable { F.IsAlwaysCallable run_case.now }
    requires onward { MovesOn (F.post run_case.now) }
    ensures { OnOk result (numbers.new ≡ []) }
{
    while !numbers.is_done() {
        run_case(out, numbers)?;
    }
    Ok(())
}

// Runs the cases of so many blocks of the input at most; no case lies in two.
fn run_blocks<R: Read, W: Write, F: Fn(&mut W, &mut Numbers<'_>) -> io::Result<()>>(
    reader: &mut R,
    out: &mut W,
    block: &mut [u8],
    blocks: usize,
    run_case: &F,
) -> io::Result<()>
    requires callable { F.IsAlwaysCallable run_case.now }
    requires onward { MovesOn (F.post run_case.now) }
{
    for _ in 0..blocks {
        let n = input::read_full(reader, block)?;
        run_cases(out, &mut Numbers::new(&block[..n]), run_case)?;
    }
    Ok(())
}

// Runs the cases of standard input, of which so many blocks of BYTES are read, and writes the answers.
pub fn run<const BYTES: usize, F: Fn(&mut BufWriter<Stdout>, &mut Numbers<'_>) -> io::Result<()>>(
    rt: HostRuntime,
    blocks: usize,
    run_case: F,
) -> io::Result<()>
    requires fits { BYTES < 2 ^ 63 }
    requires callable { F.IsAlwaysCallable run_case }
    requires onward { MovesOn (F.post run_case) }
{
    let mut block = [0u8; BYTES];
    let mut out = BufWriter::new(rt.alloc(), rt.stdout())?;
    run_blocks(&mut rt.stdin(), &mut out, &mut block, blocks, &run_case)?;
    out.flush()
}

#[cfg(test)]
mod tests {
    use super::*;
    use std::test::Fail;

    fn write_back<W: Write>(out: &mut W, numbers: &mut Numbers<'_>) -> io::Result<()>
        ensures { PassesSome result numbers.old numbers.new }
    {
        writeln!(out, "{}", numbers.next_number())
    }

    #[test]
    fn runs_each_case(rt: HostRuntime) -> Result<(), Fail> {
        let mut out = Vec::new(rt.alloc());
        run_cases(&mut out, &mut Numbers::new(b"1\n23\n4"), &write_back)?;
        assert_eq!(rt; out.as_slice(), b"1\n23\n4\n".as_slice());
        Ok(())
    }

    #[test]
    fn runs_each_block(rt: HostRuntime) -> Result<(), Fail> {
        let mut text: &[u8] = b"1\n2\n345\n6\n";
        let mut out = Vec::new(rt.alloc());
        run_blocks(&mut text, &mut out, &mut [0u8; 4], 2, &write_back)?;
        assert_eq!(rt; out.as_slice(), b"1\n2\n345\n".as_slice());
        Ok(())
    }

    #[test]
    fn ends_without_a_block(rt: HostRuntime) -> Result<(), Fail> {
        run::<16, _>(rt, 0, write_back)?;
        Ok(())
    }
}
