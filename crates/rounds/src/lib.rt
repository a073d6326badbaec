// What the benchmark measures the calls on values by: events judged one after the other, those that
// are allowed recorded.
#![tactic(auto)]

ghost use Rattle.std.specs.Prelude.{◌≡◌, length};
ghost use Rattle.codec.specs.Refusals.{reply};
ghost use Rattle.codec.specs.Output.{answer, left};
ghost use Rattle.rounds.specs.Rounds.{round, rounds, rounds_reply, refusal_or0};

use codec::Refusal;
use net::{Net, Observer, Verdict};

// Writes the state after the events, one in a byte, from fresh: 0, or the number of a refusal, which
// writes nothing.
pub fn value_rounds<'a>(d: &'a [u8], events: &'a [u8], out: &mut [u8]) -> u32
    ensures answer { result ≡ refusal_or0 (answer (length out.old) (rounds_reply d.now events.now)) }
    ensures output { out.new ≡ left out.old (rounds_reply d.now events.now) }
{
    match state_after(d, events, out) {
        Ok(_) => 0,
        Err(refusal) => refusal.number(),
    }
}

// The same, told as the calls on values tell it.
#[tactic(auto, unfolding(crate::specs::Rounds::rounds_reply))]
fn state_after<'a>(d: &'a [u8], events: &'a [u8], out: &mut [u8]) -> Result<usize, Refusal>
    ensures answer { reply result ≡ answer (length out.old) (rounds_reply d.now events.now) }
    ensures output { out.new ≡ left out.old (rounds_reply d.now events.now) }
{
    let net = description::read_description(d)?;
    let fresh = Observer::fresh(net)?;
    let observer = after_events(net, fresh, events);
    values::write_observer(net, observer, out)
}

#[tactic(auto, using(crate::proofs::Rounds::rounds_more, crate::proofs::Rounds::rounds_none))]
fn after_events(net: Net, observer: Observer, events: &[u8]) -> Observer
    ensures { result ≡ rounds net observer events.now }
{
    let mut current = observer;
    for event in events {
        current = after_event(net, current, *event as u32);
    }
    current
}

#[tactic(auto, unfolding(crate::specs::Rounds::round))]
fn after_event(net: Net, observer: Observer, event: u32) -> Observer
    ensures { result ≡ round net observer event }
{
    if let Ok(Verdict::Allow) = values::judge_event(net, observer, event)
        && let Ok(after) = values::record_event(net, observer, event)
    {
        return after;
    }
    observer
}
