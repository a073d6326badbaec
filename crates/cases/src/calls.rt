// A call of the observer, answered on bytes, and the first four and `Other` on values in memory too.
use crate::call::Call;
use crate::words::{judged, known, refused, written, written_both};
use codec::Refusal;
use net::{Net, Observer};
use std::io;

pub fn answers<'a>(
    rt: &impl Print,
    d: &'a [u8],
    s: &'a [u8],
    call: Call,
    event: u32,
    room: usize,
) -> io::Result<()> {
    // more than the state of any case
    let mut space = [0u8; 500];
    if 500 < room {
        return Ok(());
    }
    let out = &mut space[..room];
    on_bytes(rt, d, s, call, event, out)?;
    match call {
        Call::Older | Call::Dense | Call::Sparse => Ok(()),
        _ => {
            print!(rt; " /")?;
            on_values(rt, d, s, call, event, out)
        }
    }
}

fn on_bytes<'a>(
    rt: &impl Print,
    d: &'a [u8],
    s: &'a [u8],
    call: Call,
    event: u32,
    out: &mut [u8],
) -> io::Result<()> {
    let wrote = match call {
        Call::Fresh => observer::fresh(d, out),
        Call::Record => observer::record(d, s, event, out),
        Call::Older => observer::older(d, s, out),
        Call::Dense => observer::dense(d, s, out),
        Call::Sparse => observer::sparse(d, s, out),
        Call::Judge => return judged(rt, observer::judge(d, s, event)),
        _ => return known(rt, observer::known(d, s)),
    };
    written(rt, wrote, out)
}

fn on_values<'a>(
    rt: &impl Print,
    d: &'a [u8],
    s: &'a [u8],
    call: Call,
    event: u32,
    out: &mut [u8],
) -> io::Result<()> {
    let net = match description::read_description(d) {
        Ok(net) => net,
        Err(refusal) => return refused(rt, refusal),
    };
    // what a call answers of the observer that it leaves, or its refusal
    let observer = match left_by(net, s, call, event) {
        Ok(observer) => observer,
        Err(refusal) => return refused(rt, refusal),
    };
    match call {
        Call::Judge => judged(rt, values::judge_event(net, observer, event)),
        Call::Known => known(rt, values::is_known(net, observer)),
        _ => {
            let wrote = values::write_observer(net, observer, out);
            written(rt, wrote, out)
        }
    }
}

// The observer that a call leaves: a fresh one, the saved one, or that with the event recorded.
fn left_by(net: Net, s: &[u8], call: Call, event: u32) -> Result<Observer, Refusal> {
    if call == Call::Fresh {
        return Observer::fresh(net);
    }
    let saved = values::read_observer(net, s)?;
    if call == Call::Record {
        return values::record_event(net, saved, event);
    }
    Ok(saved)
}

// A head count, answered on bytes.
pub fn counts<'a>(
    rt: &impl Print,
    d: &'a [u8],
    s: &'a [u8],
    places: &'a [u8],
    tokens: u32,
    described_room: usize,
    room: usize,
) -> io::Result<()> {
    // more than the description that a case writes, and more than its state
    let mut described_space = [0u8; 500];
    let mut space = [0u8; 500];
    if 500 < described_room || 500 < room {
        return Ok(());
    }
    let described = &mut described_space[..described_room];
    let out = &mut space[..room];
    let wrote = observer::count(d, s, places, tokens, described, out);
    written_both(rt, wrote, described, out)
}
