// One number of a walk over bytes that are measured or written.
ghost use Rattle.std.specs.Prelude.{◌≡◌};
ghost use Rattle.codec.specs.Walk.{number_end, put_at};

// Measures a number at the position or writes it there, and answers the position after it, or the same
// one if no position is so large. It writes nothing if there is no room for all of the number's bytes.
// `writing` is a flag and no type: the clauses `put_at writing` here and `Walked writing` above speak of both.
#[tactic(auto, using(crate::proofs::Walk::told), unfolding(crate::specs::Walk::put_at))]
pub fn put_number(out: &mut [u8], at: usize, number: u32, writing: bool) -> usize
    ensures position { result ≡ number_end at number }
    ensures output { out.new ≡ put_at writing out.old at number }
{
    if !writing {
        return number_end(at, number);
    }
    match numbers::write_number(out, at, number) {
        Some(next) => next,
        None => number_end(at, number),
    }
}

// The position after a number, or the same one if no position is so large.
fn number_end(at: usize, number: u32) -> usize
    ensures { result ≡ number_end at number }
{
    let size = numbers::number_length(number);
    if usize::MAX - size < at {
        return at;
    }
    at + size
}
