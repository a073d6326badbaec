// What readers and writers of bytes answer, and the refusals by name (01, "Questions put in turn").
#![tactic(auto)]

mod put;
mod refusals;
mod rising;

ghost use Rattle.std.specs.Prelude.{◌≡◌};

pub use put::put_number;
pub use refusals::Refusal;
pub use rising::read_place;

// A byte as a number that can stand for a position; docs/REFERENCE.md offers it by this name.
pub fn wide(byte: u8) -> usize
    ensures { result ≡ byte }
{
    byte as usize
}
