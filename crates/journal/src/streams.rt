// Standard input and output. An interrupted call is tried again; any other failure is told on
// standard error, and nothing is read or written after it.
ghost use Rattle.std.specs.Prelude.{◌+◌, ◌≤◌, ◌≡◌, length, take, drop};
ghost use Rattle.journal.specs.Streams.{Moves, Came, Holds};

use std::io::{Error, ErrorKind, Read, Write};

// A failure that was told.
#[derive(Clone, Copy)]
pub struct Failed;

// Reads until the buffer has `wanted` bytes or the input ends: how many it has.
pub fn fill(rt: &HostRuntime, space: &mut [u8], held: usize, wanted: usize) -> Result<usize, Failed>
    requires held { held ≤ length space.old }
    requires wanted { wanted ≤ length space.old }
    ensures answer { Holds held (length space.old) result }
    ensures kept { take held space.new ≡ take held space.old }
{
    let mut end = held;
    // a while: a turn reads as many bytes as come
    while end < wanted {
        let Some(came) = read_more(rt, space, end)? else {
            return Ok(end);
        };
        end += came;
    }
    Ok(end)
}

// Reads some bytes after those that the buffer has: how many; none at the input's end.
pub fn read_more(rt: &HostRuntime, space: &mut [u8], held: usize) -> Result<Option<usize>, Failed>
    requires { held ≤ length space.old }
    ensures answer { Came held (length space.old) result }
    ensures kept { take held space.new ≡ take held space.old }
{
    // A proved loop has to end, and nothing says that interruptions do: so many turns no run uses up.
    for _ in 0..u64::MAX {
        let mut stdin = rt.stdin();
        match stdin.read(&mut space[held..]) {
            Ok(0) => return Ok(None),
            Ok(came) => return Ok(Some(came)),
            Err(error) => failure(rt, "standard input", error)?,
        }
    }
    Err(Failed)
}

// Writes the first `used` bytes of the output.
pub fn write_out(rt: &HostRuntime, out: &[u8], used: usize) -> Result<(), Failed>
    requires { used ≤ length out.now }
{
    let mut done = 0;
    for _ in 0..u64::MAX {
        if used <= done {
            return Ok(());
        }
        if let Some(count) = write_once(rt, out, done, used)? {
            done += count;
        }
    }
    Err(Failed)
}

// One call: how many bytes it moved; none if it was interrupted.
fn write_once(
    rt: &HostRuntime,
    out: &[u8],
    done: usize,
    used: usize,
) -> Result<Option<usize>, Failed>
    requires { (done ≤ used) × (used ≤ length out.now) }
    ensures { Moves done used result }
{
    let mut stdout = rt.stdout();
    match stdout.write(&out[done..used]) {
        Ok(0) => {
            let _ = eprintln!(rt; "journal: standard output takes nothing");
            Err(Failed)
        }
        Ok(count) => Ok(Some(count)),
        Err(error) => {
            failure(rt, "standard output", error)?;
            Ok(None)
        }
    }
}

// A call that failed, by its error: it was interrupted, or that is told of the stream.
fn failure(rt: &HostRuntime, stream: &str, error: Error) -> Result<(), Failed> {
    if error.kind() == ErrorKind::Interrupted {
        return Ok(());
    }
    let told = format!(in rt.alloc(); "{error}");
    let _ = match told {
        Ok(told) => {
            let words = system_words(told.as_str());
            eprintln!(rt; "journal: {stream}: {words}")
        }
        Err(_) => eprintln!(rt; "journal: {stream}: {error}"),
    };
    Err(Failed)
}

// The system's words for an error, without the number that std puts after them.
fn system_words(told: &str) -> &str {
    match told.split_once(" (os error ") {
        Some((words, _)) => words,
        None => told,
    }
}

// Reads `count` bytes and drops them, and perhaps some after them: were they all there?
pub fn skip(rt: &HostRuntime, space: &mut [u8], count: usize) -> Result<bool, Failed> {
    let mut left = count;
    // a while: a turn drops as many bytes as come
    while 0 < left {
        let Some(came) = read_more(rt, space, 0)? else {
            return Ok(false);
        };
        left = left.saturating_sub(came);
    }
    Ok(true)
}

// Moves `count` bytes from a position to the front.
pub fn move_down(space: &mut [u8], at: usize, count: usize)
    requires { at + count ≤ length space.old }
    ensures { take count space.new ≡ take count (drop at space.old) }
{
    space.copy_within(at..at + count, 0);
}
