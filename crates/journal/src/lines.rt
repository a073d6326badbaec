// Lines as bytes (specs/Lines.antt), put into the output at a position.
ghost use Rattle.std.specs.Prelude.{◌+◌, ◌≤◌, true, [], ◌∷◌, ◌++◌, length, get_or};
ghost use Rattle.codec.specs.Refusals.{number, reply};
ghost use Rattle.codec.specs.Walk.{Room, Walked};
ghost use Rattle.journal.specs.Lines.{decimal, space, answer_bytes, spaced, line_bytes, refused_bytes, longest_line};

use codec::Refusal;
use net::{Estimates, Unplaced, Verdict};

// The line of an event; the position after it.
pub fn put_line<'a>(
    out: &mut [u8],
    at: usize,
    places: usize,
    groups: usize,
    event: u32,
    answer: Result<Verdict, Refusal>,
    estimates: &'a Estimates,
    numbers: &'a Unplaced,
) -> usize
    requires room { at + longest_line ≤ length out.old }
    requires places { places ≤ 64 }
    requires groups { groups ≤ 32 }
    ensures { Walked true out.old at (line_bytes event (reply answer) places (λ p. get_or estimates.now p 0) groups (λ i. get_or numbers.now i 0)) out.new result }
{
    let next = put_number(out, at, event);
    let next = put_answer(out, next, answer);
    let next = put_numbers(out, next, places, estimates);
    let next = put_numbers(out, next, groups, numbers);
    put_byte(out, next, b'\n')
}

// The ending of a journal that is refused; the position after it.
pub fn put_refusal(out: &mut [u8], at: usize, refusal: Refusal) -> usize
    requires { at + longest_line ≤ length out.old }
    ensures { Walked true out.old at (refused_bytes (number refusal)) out.new result }
{
    let next = put_text(out, at, b"refused ");
    let next = put_number(out, next, refusal.number());
    put_byte(out, next, b'\n')
}

// A space, the word, a space, and the limit or the refusal or 0.
fn put_answer(out: &mut [u8], at: usize, answer: Result<Verdict, Refusal>) -> usize
    requires { Room true out.old at (space ∷ answer_bytes (reply answer)) }
    ensures { Walked true out.old at (space ∷ answer_bytes (reply answer)) out.new result }
{
    match answer {
        Ok(Verdict::Allow) => put_numbered(out, at, b" allow ", 0),
        Ok(Verdict::Hold(limit)) => put_numbered(out, at, b" hold ", limit),
        Err(refusal) => put_numbered(out, at, b" refused ", refusal.number()),
    }
}

// The first `count` of these numbers, each after a space.
fn put_numbers(out: &mut [u8], at: usize, count: usize, numbers: &[u32]) -> usize
    requires count { count ≤ length numbers.now }
    requires room { Room true out.old at (spaced count (λ i. get_or numbers.now i 0)) }
    ensures { Walked true out.old at (spaced count (λ i. get_or numbers.now i 0)) out.new result }
{
    let mut next = at;
    for number in &numbers[..count] {
        next = put_spaced(out, next, *number);
    }
    next
}

// A space and the number.
fn put_spaced(out: &mut [u8], at: usize, number: u32) -> usize
    requires { Room true out.old at (space ∷ decimal number) }
    ensures { Walked true out.old at (space ∷ decimal number) out.new result }
{
    let next = put_byte(out, at, b' ');
    put_number(out, next, number)
}

// The text and the number.
fn put_numbered(out: &mut [u8], at: usize, text: &[u8], number: u32) -> usize
    requires { Room true out.old at (text.now ++ decimal number) }
    ensures { Walked true out.old at (text.now ++ decimal number) out.new result }
{
    let next = put_text(out, at, text);
    put_number(out, next, number)
}

// The number in decimal: its last digit after those of a tenth of it.
fn put_number(out: &mut [u8], at: usize, number: u32) -> usize
    requires { Room true out.old at (decimal number) }
    ensures { Walked true out.old at (decimal number) out.new result }
{
    if number < 10 {
        return put_byte(out, at, (48 + number) as u8);
    }
    let next = put_number(out, at, number / 10);
    put_byte(out, next, (48 + number % 10) as u8)
}

fn put_text(out: &mut [u8], at: usize, text: &[u8]) -> usize
    requires { Room true out.old at text.now }
    ensures { Walked true out.old at text.now out.new result }
{
    let mut next = at;
    for byte in text {
        next = put_byte(out, next, *byte);
    }
    next
}

fn put_byte(out: &mut [u8], at: usize, byte: u8) -> usize
    requires { Room true out.old at (byte ∷ []) }
    ensures { Walked true out.old at (byte ∷ []) out.new result }
{
    out[at] = byte;
    at + 1
}
