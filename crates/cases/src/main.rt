// Cases from standard input, each a call with its label: a line for each, with what the call
// answers.
#![tactic(auto)]

ghost use Rattle.std.specs.Prelude.{◌≤◌, length, IfOk};

mod call;
mod calls;
mod descriptions;
mod input;
mod words;

use call::Call;
use input::{after, end_of, number_at, part};
use std::io;
use std::io::{Read, Stdin};

fn main(rt: HostRuntime) -> io::Result<()> {
    // more than the list of cases has
    let mut space = [0u8; 262144];
    let count = read_full(&mut rt.stdin(), &mut space)?;
    cases(&rt, input::first(&space, count))
}

// Reads until the buffer is full or the input ends: how many bytes it has then.
fn read_full(stdin: &mut Stdin, space: &mut [u8]) -> io::Result<usize>
    ensures { IfOk result (λ count. count ≤ length space.new) }
{
    let mut held = 0;
    // a while: a turn reads as many bytes as come
    while held < space.len() {
        let came = stdin.read(&mut space[held..])?;
        if came == 0 {
            return Ok(held);
        }
        held += came;
    }
    Ok(held)
}

fn cases(rt: &impl Print, input: &[u8]) -> io::Result<()> {
    let mut at = 0;
    // a while: the position moves by one case a turn, however long that is
    while at < input.len() {
        let next = one_case(rt, input, at)?;
        if next <= at {
            return Ok(());
        }
        at = next;
    }
    Ok(())
}

// A label, a description, a state and a list of places, each after its length, then the call, the
// event and the rooms for a description and for a state; the position after them, or the input's end if
// they are cut short.
fn one_case(rt: &impl Print, input: &[u8], at: usize) -> io::Result<usize> {
    let description = end_of(input, at);
    let state = end_of(input, description);
    let places = end_of(input, state);
    let at_call = end_of(input, places);
    let at_event = after(input, at_call);
    let at_described = after(input, at_event);
    let at_room = after(input, at_described);
    rt.write_all(part(input, at))?;
    print!(rt; ":")?;
    answer(
        rt,
        part(input, description),
        part(input, state),
        part(input, places),
        Call::from(number_at(input, at_call)),
        number_at(input, at_event),
        number_at(input, at_described) as usize,
        number_at(input, at_room) as usize,
    )?;
    println!(rt)?;
    Ok(after(input, at_room))
}

// If a byte is changed, the event is its position; of a head count it is the number of tokens.
fn answer<'a>(
    rt: &impl Print,
    d: &'a [u8],
    s: &'a [u8],
    places: &'a [u8],
    call: Call,
    event: u32,
    described_room: usize,
    room: usize,
) -> io::Result<()> {
    match call {
        Call::Describe => descriptions::describe(rt, d),
        Call::Changed => descriptions::changed(rt, d, event as usize),
        Call::Count => calls::counts(rt, d, s, places, event, described_room, room),
        _ => calls::answers(rt, d, s, call, event, room),
    }
}
