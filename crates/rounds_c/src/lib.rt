// The rounds under C's name: what crates/rounds answers and promises.
#![tactic(auto)]

ghost use Rattle.std.specs.Prelude.{◌≡◌, length};
ghost use Rattle.codec.specs.Output.{answer, left};
ghost use Rattle.rounds.specs.Rounds.{rounds_reply, refusal_or0};

// Writes the state after the events, one in a byte, from fresh: 0, or the number of a refusal, which
// writes nothing.
#[unsafe(no_mangle)]
pub extern "C" fn value_rounds<'a>(d: &'a [u8], events: &'a [u8], out: &mut [u8]) -> u32
    ensures answer { result ≡ refusal_or0 (answer (length out.old) (rounds_reply d.now events.now)) }
    ensures output { out.new ≡ left out.old (rounds_reply d.now events.now) }
{
    rounds::value_rounds(d, events, out)
}
