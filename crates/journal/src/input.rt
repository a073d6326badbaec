// What the bytes that were read tell of the number at a position of the input.
ghost use Rattle.std.specs.Prelude.{◌≤◌, length};
ghost use Rattle.journal.specs.Passing.{Tells};

use numbers::LONGEST_NUMBER;

// A number and the position after it; no stored number; or more bytes are needed to tell. Three
// outcomes, each with its name: no Option or Result says them.
#[derive(Clone, Copy)]
pub enum Next {
    Number(u32, usize),
    IllFormed,
    Short,
}

#[tactic(auto, using(crate::proofs::Telling::telling))]
pub fn next_number(seen: &[u8], at: usize) -> Next
    requires { at ≤ length seen.now }
    ensures { Tells seen.now at result }
{
    match numbers::read_number(seen, at) {
        Some((number, next)) => Next::Number(number, next),
        None => {
            if seen.len() - at < LONGEST_NUMBER {
                Next::Short
            } else {
                Next::IllFormed
            }
        }
    }
}
