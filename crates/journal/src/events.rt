// Events: each is judged and recorded, and its line put out.
ghost use Rattle.std.specs.Prelude.{ℕ, ◌≤◌, ◌≡◌, List, length, take};
ghost use Rattle.theory.specs.Nets as Theory;
ghost use Rattle.theory.specs.Recording.{State};
ghost use Rattle.codec.specs.Reader.{no, number};
ghost use Rattle.codec.specs.Refusals.{reply};
ghost use Rattle.journal.specs.Lines.{longest_line};
ghost use Rattle.journal.specs.Printed.{lines};
ghost use Rattle.journal.specs.Passing.{Running, Steps, Passes, Unfinished};

use crate::input::Next;
use crate::{input, lines};
use codec::Refusal;
use net::{Estimates, Net, Remainders, Verdict};

// No line is longer.
const LONGEST_LINE: usize = 1086;

// Why a pass stops: the output has no room for another line; more bytes are needed to tell the next
// number; or no stored number stands there, and that is put out. Three outcomes, each with its name:
// no Option or Result says them.
#[derive(Clone, Copy)]
pub enum Stop {
    Full,
    Short,
    Ended,
}

// Why a pass stopped, the position after the events that it passed, and how many bytes were put out.
#[derive(Clone, Copy)]
pub struct Pass {
    pub stop: Stop,
    pub at: usize,
    pub used: usize,
}

// The events that stand in the bytes seen from a position on. Estimates and own remainders become
// those after them.
pub fn pass_events(
    net: Net,
    seen: &[u8],
    from: usize,
    estimates: &mut Estimates,
    remainders: &mut Remainders,
    out: &mut [u8],
) -> Pass
    requires from { from ≤ length seen.now }
    requires running { Running net estimates.old remainders.old }
    ensures within { (result.at ≤ length seen.now) × (result.used ≤ length out.new) }
    ensures stop { Unfinished result.stop seen.now result.at }
    ensures lines { Passes net seen.now from estimates.old remainders.old estimates.new remainders.new out.new result }
{
    let mut at = from;
    let mut used: usize = 0;
    // a while: the position moves by one to five bytes a turn, and the room for lines ends the turns
    while LONGEST_LINE <= out.len() - used {
        match input::next_number(seen, at) {
            Next::Short => {
                return Pass {
                    stop: Stop::Short,
                    at,
                    used,
                };
            }
            Next::IllFormed => {
                let end = lines::put_refusal(out, used, Refusal::IllFormed);
                return Pass {
                    stop: Stop::Ended,
                    at,
                    used: end,
                };
            }
            Next::Number(event, after) => {
                let answer = step_event(net, event, estimates, remainders);
                let numbers = steps::unplaced_numbers(
                    net.groups.number,
                    &net.groups.around,
                    remainders,
                );
                used = lines::put_line(
                    out,
                    used,
                    net.places,
                    net.groups.number,
                    event,
                    answer,
                    estimates,
                    &numbers,
                );
                at = after;
            }
        }
    }
    Pass {
        stop: Stop::Full,
        at,
        used,
    }
}

// Judges an event and records it. Estimates and own remainders become those after it, and stay if
// it is refused.
fn step_event(
    net: Net,
    event: u32,
    estimates: &mut Estimates,
    remainders: &mut Remainders,
) -> Result<Verdict, Refusal>
    requires { Running net estimates.old remainders.old }
    ensures { Steps net event estimates.old remainders.old estimates.new remainders.new (reply result) }
{
    let event = event as usize;
    if !net::counted(net.events, event) {
        return Err(Refusal::NoEvent);
    }
    let takes = net::event_row(&net.takes, event - 1);
    let gives = net::event_row(&net.gives, event - 1);
    steps::step(
        net.places,
        net.groups.number,
        &net.groups.homes,
        &takes,
        &gives,
        estimates,
        remainders,
    )?;
    limits::weigh_tables(
        net.places,
        net.groups.number,
        net.limits,
        &net.groups.homes,
        &takes,
        &gives,
        estimates,
        remainders,
        &net.ceilings,
        &net.weights,
    )
}

// The input ends with these bytes, which tell no number: how many bytes were put out, none if
// there are none.
#[tactic(auto, using(crate::proofs::Passed::none_left))]
pub fn leave(left: usize, out: &mut [u8]) -> usize
    requires { longest_line ≤ length out.old }
    ensures within { result ≤ length out.new }
    ensures lines { (bytes : List ℕ) (net : Theory.Net) (s : State) → length bytes ≡ left → number bytes ≡ no 1 → take result out.new ≡ lines net s bytes }
{
    if left == 0 {
        return 0;
    }
    lines::put_refusal(out, 0, Refusal::IllFormed)
}
