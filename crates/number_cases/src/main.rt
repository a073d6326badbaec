// Stored numbers at their boundaries: written, refused for want of room, read, and signed; a line
// for each case.
#![tactic(auto)]

use std::io;

fn main(rt: HostRuntime) -> io::Result<()> {
    write_cases(&rt)?;
    room_cases(&rt)?;
    read_cases(&rt)?;
    refused_cases(&rt)?;
    signed_cases(&rt)
}

fn write_cases(rt: &impl Print) -> io::Result<()> {
    let numbers = [
        0, 127, 128, 16383, 16384, 65535, 2097151, 2097152, 268435455, 268435456, 4294967295,
    ];
    for number in &numbers {
        write_case(rt, *number, 0)?;
    }
    Ok(())
}

// The buffer has six bytes.
fn room_cases(rt: &impl Print) -> io::Result<()> {
    write_case(rt, 0, 5)?;
    write_case(rt, 0, 6)?;
    write_case(rt, 0, 7)?;
    write_case(rt, 65535, 3)?;
    write_case(rt, 65535, 4)?;
    write_case(rt, 65535, 6)?;
    write_case(rt, 4294967295, 1)?;
    write_case(rt, 4294967295, 2)?;
    write_case(rt, 4294967295, usize::MAX)
}

fn read_cases(rt: &impl Print) -> io::Result<()> {
    read_case(rt, b"\x00", 0)?;
    read_case(rt, b"\x7F", 0)?;
    read_case(rt, b"\x80\x01", 0)?;
    read_case(rt, b"\xFF\x7F", 0)?;
    read_case(rt, b"\x80\x80\x01", 0)?;
    read_case(rt, b"\xFF\xFF\x03", 0)?;
    read_case(rt, b"\xFF\xFF\xFF\xFF\x0F", 0)?;
    read_case(rt, b"\x80\x80\x80\x80\x01", 0)?;
    read_case(rt, b"\x05\x80\x01\x06\xFF", 1)?;
    read_case(rt, b"\x05\x80\x01\x06\xFF", 3)
}

fn refused_cases(rt: &impl Print) -> io::Result<()> {
    read_case(rt, b"\x80\x00", 0)?;
    read_case(rt, b"\x80", 0)?;
    read_case(rt, b"\xFF\xFF\xFF\xFF\x00", 0)?;
    read_case(rt, b"\x80\x80\x80\x80\x10", 0)?;
    read_case(rt, b"\xFF\xFF\xFF\xFF\x1F", 0)?;
    read_case(rt, b"\x80\x80\x80\x80\x80\x01", 0)?;
    read_case(rt, b"\xFF\xFF\xFF\xFF\xFF\x01", 0)?;
    read_case(rt, b"\xFF\xFF\xFF\xFF\xFF", 0)?;
    read_case(rt, b"", 0)?;
    read_case(rt, b"\x01\x02", 2)?;
    read_case(rt, b"\x01\x02", 3)?;
    read_case(rt, b"\x01\x02", usize::MAX)
}

fn signed_cases(rt: &impl Print) -> io::Result<()> {
    let numbers = [
        0,
        -1,
        1,
        -1000000000,
        1000000000,
        -2147483648,
        2147483647,
        -2147483649,
        2147483648,
    ];
    for n in &numbers {
        signed_case(rt, *n)?;
    }
    Ok(())
}

// The number, written at a position of six bytes that were EE.
fn write_case(rt: &impl Print, number: u32, at: usize) -> io::Result<()> {
    let length = numbers::number_length(number);
    print!(rt; "write {number} at {at}: length {length}")?;
    let mut buffer = [0xEEu8; 6];
    match numbers::write_number(&mut buffer, at, number) {
        Some(after) => print!(rt; ", next {after}")?,
        None => print!(rt; ", full")?,
    }
    print!(rt; ", bytes")?;
    bytes(rt, &buffer)?;
    println!(rt)
}

// What stands at a position of the bytes.
fn read_case(rt: &impl Print, s: &[u8], at: usize) -> io::Result<()> {
    print!(rt; "read")?;
    bytes(rt, s)?;
    print!(rt; " at {at}: ")?;
    match numbers::read_number(s, at) {
        Some((number, next)) => println!(rt; "{number}, next {next}"),
        None => println!(rt; "nothing"),
    }
}

// The signed number, whether it comes back from what it is stored as, and the bytes of that.
fn signed_case(rt: &impl Print, n: i64) -> io::Result<()> {
    let stored = numbers::stored_from_signed(n);
    print!(rt; "signed {n}: stored {stored}")?;
    let Ok(number) = u32::try_from(stored) else {
        return println!(rt; ", too large");
    };
    if numbers::signed_from_stored(number) == n {
        print!(rt; ", the same back, ")?;
    } else {
        print!(rt; ", another back, ")?;
    }
    write_case(rt, number, 0)
}

fn bytes(rt: &impl Print, s: &[u8]) -> io::Result<()> {
    for value in s {
        print!(rt; " {value:02x}")?;
    }
    Ok(())
}
