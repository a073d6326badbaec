// The start of the input: the length of the description, and the description. What is put out if
// either is refused is all that is printed.
ghost use Rattle.std.specs.Prelude.{ℕ, ◌+◌, ◌≤◌, ◌<◌, ◌≡◌, List, ◌++◌, length, take, drop};
ghost use Rattle.codec.specs.Refusals.{reply};
ghost use Rattle.numbers.specs.Number.{longest_number};
ghost use Rattle.description.specs.Read.{longest_description};
ghost use Rattle.journal.specs.Lines.{longest_line};
ghost use Rattle.journal.specs.Printed.{printed};
ghost use Rattle.journal.specs.Passing.{Sized, Locates, Starts, Opens, begun};

use crate::input::Next;
use crate::{input, lines};
use codec::Refusal;
use net::{Net, Observer};

// Where the description starts and its size, from the first bytes of the input: five of them, or all
// there are; or how many bytes were put out.
pub fn locate(seen: &[u8], out: &mut [u8]) -> Result<(usize, usize), usize>
    requires { longest_line ≤ length out.old }
    ensures { Locates seen.now out.new result }
{
    let Next::Number(size, start) = input::next_number(seen, 0) else {
        return Err(lines::put_refusal(out, 0, Refusal::IllFormed));
    };
    Ok((start, size as usize))
}

// The input ends before the description does: how many bytes were put out.
pub fn cut_short(out: &mut [u8]) -> usize
    requires { longest_line ≤ length out.old }
    ensures within { result ≤ length out.new }
    ensures printed { (seen rest : List ℕ) (start size : ℕ) → Sized seen start size → length (drop start seen ++ rest) < size → take result out.new ≡ printed (seen ++ rest) }
{
    lines::put_refusal(out, 0, Refusal::IllFormed)
}

// The description, which is all there up to its end: its net and a fresh observer; or how many bytes
// were put out.
pub fn open(seen: &[u8], start: usize, end: usize, out: &mut [u8]) -> Result<(Net, Observer), usize>
    requires start { start ≤ end }
    requires end { end ≤ length seen.now }
    requires out { longest_line ≤ length out.old }
    ensures starts { Starts out.new result }
    ensures opened { (size : ℕ) → end ≡ start + size → Sized seen.now start size → Opens seen.now end out.new result }
{
    match begin(&seen[start..end]) {
        Ok(begun) => Ok(begun),
        Err(refusal) => Err(lines::put_refusal(out, 0, refusal)),
    }
}

// The net that the bytes describe, and a fresh observer.
fn begin(d: &[u8]) -> Result<(Net, Observer), Refusal>
    ensures { reply result ≡ begun d.now }
{
    let net = description::read_description(d)?;
    let observer = Observer::fresh(net)?;
    Ok((net, observer))
}

// A description that goes on after the bytes seen, which are more than any good one has. It is read
// forwards, so that its first fault lies in what is seen, whatever follows: how many bytes were put
// out.
pub fn refuse_long(seen: &[u8], start: usize, out: &mut [u8]) -> usize
    requires seen { start + longest_description + longest_number ≤ length seen.now }
    requires out { longest_line ≤ length out.old }
    ensures within { result ≤ length out.new }
    ensures printed { (rest : List ℕ) (size : ℕ) → Sized seen.now start size → length (drop start seen.now) ≤ size → size ≤ length (drop start seen.now ++ rest) → take result out.new ≡ printed (seen.now ++ rest) }
{
    match description::read_description(&seen[start..]) {
        Ok(_) => 0,
        Err(refusal) => lines::put_refusal(out, 0, refusal),
    }
}
