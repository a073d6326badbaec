// Answers in words, to standard output.
use crate::input::first;
use codec::Refusal;
use net::Verdict;
use std::io;

pub fn written(rt: &impl Print, wrote: Result<usize, Refusal>, out: &[u8]) -> io::Result<()> {
    match wrote {
        Ok(count) => bytes(rt, first(out, count)),
        Err(refusal) => refused(rt, refusal),
    }
}

// The description and the state.
pub fn written_both<'a>(
    rt: &impl Print,
    wrote: Result<(usize, usize), Refusal>,
    described: &'a [u8],
    out: &'a [u8],
) -> io::Result<()> {
    match wrote {
        Ok((count, state_count)) => {
            bytes(rt, first(described, count))?;
            print!(rt; ",")?;
            bytes(rt, first(out, state_count))
        }
        Err(refusal) => refused(rt, refusal),
    }
}

fn bytes(rt: &impl Print, written: &[u8]) -> io::Result<()> {
    for value in written {
        print!(rt; " {value:02x}")?;
    }
    Ok(())
}

pub fn judged(rt: &impl Print, answer: Result<Verdict, Refusal>) -> io::Result<()> {
    match answer {
        Ok(Verdict::Allow) => print!(rt; " allow"),
        Ok(Verdict::Hold(limit)) => print!(rt; " hold {limit}"),
        Err(refusal) => refused(rt, refusal),
    }
}

pub fn known(rt: &impl Print, answer: Result<bool, Refusal>) -> io::Result<()> {
    match answer {
        Ok(true) => print!(rt; " yes"),
        Ok(false) => print!(rt; " no"),
        Err(refusal) => refused(rt, refusal),
    }
}

pub fn refused(rt: &impl Print, refusal: Refusal) -> io::Result<()> {
    let number = refusal.number();
    print!(rt; " refused {number}")
}
