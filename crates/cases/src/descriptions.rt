// What a description is read as: the sizes of its net and whether that is written back, or the
// refusals that it meets with one byte changed.
ghost use Rattle.std.specs.Prelude.{◌<◌};

use crate::input::first;
use crate::words::refused;
use net::Net;
use std::io;

pub fn describe(rt: &impl Print, d: &[u8]) -> io::Result<()> {
    match description::read_description(d) {
        Ok(net) => describe_net(rt, net, d),
        Err(refusal) => refused(rt, refusal),
    }
}

fn describe_net(rt: &impl Print, net: Net, d: &[u8]) -> io::Result<()> {
    let places = net.places;
    let events = net.events;
    let groups = net.groups.number;
    let limits = net.limits;
    print!(rt; " net {places} {events} {groups} {limits}")?;
    back(rt, net, d)
}

// Says so if the net is written as the description.
fn back(rt: &impl Print, net: Net, d: &[u8]) -> io::Result<()> {
    let mut out = [0u8; 65536];
    let Ok(count) = writing::write_description(net, &mut out) else {
        return Ok(());
    };
    if first(&out, count) == d {
        print!(rt; ", written back in {count}")?;
    }
    Ok(())
}

// For each value of the byte at a position 0 if the description is read with it, else the
// refusal.
pub fn changed(rt: &impl Print, d: &[u8], at: usize) -> io::Result<()> {
    // more than a description has of which a case changes a byte
    let mut space = [0u8; 64];
    if 64 < d.len() || d.len() <= at {
        return Ok(());
    }
    print!(rt; " ")?;
    let size = d.len();
    space[..size].copy_from_slice(d);
    each_value(rt, &mut space, size, at)
}

fn each_value(rt: &impl Print, space: &mut [u8; 64], size: usize, at: usize) -> io::Result<()>
    requires { at < 64 }
{
    for value in 0..=u8::MAX {
        space[at] = value;
        let refusal = refusal_of(first(space, size));
        print!(rt; "{refusal}")?;
    }
    Ok(())
}

// The number of a description's refusal, or 0.
fn refusal_of(d: &[u8]) -> u32 {
    match description::read_description(d) {
        Ok(_) => 0,
        Err(refusal) => refusal.number(),
    }
}
