// The journal (01, "The pool of three"): a description after its length and then event numbers from
// standard input; a line for each event to standard output. What is put out at each step is proved to
// be what specs/Printed.antt says; here it is read and written. The net is read once and one state
// kept, however many events there are.
#![tactic(auto)]

mod events;
mod input;
mod lines;
mod opening;
mod streams;

ghost use Rattle.std.specs.Prelude.{◌+◌, ◌≤◌, length};
ghost use Rattle.numbers.specs.Number.{longest_number};
ghost use Rattle.description.specs.Read.{longest_description};
ghost use Rattle.journal.specs.Lines.{longest_line};
ghost use Rattle.journal.specs.Passing.{Running};

use events::Stop;
use net::{Net, Observer};
use streams::Failed;

fn main(rt: HostRuntime) {
    // 32,768 bytes: more than the longest description has, 24,037, and its length before it
    let mut space = [0u8; 32768];
    let mut out = [0u8; 32768];
    // a failure was told
    let _ = journal(&rt, &mut space, &mut out);
}

fn journal(rt: &HostRuntime, space: &mut [u8], out: &mut [u8]) -> Result<(), Failed>
    requires space { longest_number + longest_description + longest_number ≤ length space.old }
    requires out { longest_line ≤ length out.old }
{
    let held = streams::fill(rt, space, 0, numbers::LONGEST_NUMBER)?;
    match opening::locate(&space[..held], out) {
        Ok((start, size)) => describe(rt, space, held, start, size, out),
        Err(used) => streams::write_out(rt, out, used),
    }
}

// The description, whose size is known and whose first bytes are in the buffer.
fn describe(
    rt: &HostRuntime,
    space: &mut [u8],
    held: usize,
    start: usize,
    size: usize,
    out: &mut [u8],
) -> Result<(), Failed>
    requires space { longest_number + longest_description + longest_number ≤ length space.old }
    requires held { (start ≤ held) × (held ≤ length space.old) × (start ≤ longest_number) }
    requires out { longest_line ≤ length out.old }
{
    let room = space.len() - start;
    if room < size {
        return describe_long(rt, space, held, start, size - room, out);
    }
    let end = start + size;
    let held = streams::fill(rt, space, held, end)?;
    if held < end {
        let used = opening::cut_short(out);
        return streams::write_out(rt, out, used);
    }
    match opening::open(&space[..held], start, end, out) {
        Ok((net, observer)) => run(rt, net, observer, space, end, held, out),
        Err(used) => streams::write_out(rt, out, used),
    }
}

// A description that goes on for `beyond` bytes after the buffer. It is refused, but a length past the
// input comes first.
fn describe_long(
    rt: &HostRuntime,
    space: &mut [u8],
    held: usize,
    start: usize,
    beyond: usize,
    out: &mut [u8],
) -> Result<(), Failed>
    requires space { longest_number + longest_description + longest_number ≤ length space.old }
    requires held { (held ≤ length space.old) × (start ≤ longest_number) }
    requires out { longest_line ≤ length out.old }
{
    let room = space.len();
    let held = streams::fill(rt, space, held, room)?;
    if held < room {
        let used = opening::cut_short(out);
        return streams::write_out(rt, out, used);
    }
    let refused = opening::refuse_long(space, start, out);
    let all = streams::skip(rt, space, beyond)?;
    let used = if all {
        refused
    } else {
        opening::cut_short(out)
    };
    streams::write_out(rt, out, used)
}

// The events from the position `start` on; the buffer holds the first `held` bytes. What was put
// out is written before each read: a line never waits for the next event.
fn run(
    rt: &HostRuntime,
    net: Net,
    observer: Observer,
    space: &mut [u8],
    start: usize,
    held: usize,
    out: &mut [u8],
) -> Result<(), Failed>
    requires running { Running net observer.estimates observer.remainders }
    requires held { (start ≤ held) × (held ≤ length space.old) }
    requires out { longest_line ≤ length out.old }
{
    let mut estimates = observer.estimates;
    let mut remainders = observer.remainders;
    let mut at = start;
    let mut end = held;
    // A proved loop has to end, and nothing says that the input does: so many turns no run uses up.
    for _ in 0..u64::MAX {
        let pass = events::pass_events(
            net,
            &space[..end],
            at,
            &mut estimates,
            &mut remainders,
            out,
        );
        streams::write_out(rt, out, pass.used)?;
        at = pass.at;
        match pass.stop {
            Stop::Ended => return Ok(()),
            Stop::Full => {}
            Stop::Short => {
                let left = end - at;
                streams::move_down(space, at, left);
                let Some(came) = streams::read_more(rt, space, left)? else {
                    // the input has ended: the bytes that are left of it tell no number
                    let used = events::leave(left, out);
                    return streams::write_out(rt, out, used);
                };
                at = 0;
                end = left + came;
            }
        }
    }
    Ok(())
}
