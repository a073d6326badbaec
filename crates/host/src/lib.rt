// The host's functions: the observer's calls on bytes as C calls them (include/yarrowbeam.h), by the
// exports of crates/host_c. An answer is one number: what 01 has for it, or minus the number of a
// refusal.
#![tactic(auto)]

ghost use Rattle.std.specs.Prelude.{◌≡◌, length};
ghost use Rattle.codec.specs.Refusals.{number, reply};
ghost use Rattle.codec.specs.Output.{answer, left, both_answer, description_left, state_left};
ghost use Rattle.net.specs.Answers.{answer_of};
ghost use Rattle.observer.specs.Bytes.{fresh_reply, record_reply, known_reply, judge_reply, count_reply, older_reply, dense_reply, sparse_reply};
ghost use Rattle.host.specs.Numbers.{Countable, BothCountable, refusal_number, wrote_number, wrote_both_number, answer_number, known_number};

use codec::Refusal;
use net::Verdict;

// Writes the fresh state of the net that the bytes describe, if it fits the output: the number of
// bytes. A refusal writes nothing.
pub fn fresh(d: &[u8], out: &mut [u8]) -> i64
    ensures value { result ≡ wrote_number (answer (length out.old) (fresh_reply d.now)) }
    ensures out_after { out.new ≡ left out.old (fresh_reply d.now) }
{
    wrote_number(observer::fresh(d, out))
}

// Writes the state after an event of the net that the first bytes describe, at the state that the
// others are, if it fits the output: the number of bytes. A refusal writes nothing.
pub fn record<'a>(d: &'a [u8], s: &'a [u8], event: u32, out: &mut [u8]) -> i64
    ensures value { result ≡ wrote_number (answer (length out.old) (record_reply d.now s.now event)) }
    ensures out_after { out.new ≡ left out.old (record_reply d.now s.now event) }
{
    wrote_number(observer::record(d, s, event, out))
}

// Judges an event: 0 if it is allowed, the number of the limit that holds it if it is held.
pub fn judge<'a>(d: &'a [u8], s: &'a [u8], event: u32) -> i64
    ensures { result ≡ answer_number (answer_of (judge_reply d.now s.now event)) }
{
    match observer::judge(d, s, event) {
        Ok(Verdict::Allow) => 0,
        Ok(Verdict::Hold(limit)) => limit as i64,
        Err(refusal) => refusal_number(refusal),
    }
}

// Does the observer know where all tokens are? 1 or 0.
pub fn known<'a>(d: &'a [u8], s: &'a [u8]) -> i64
    ensures { result ≡ known_number (known_reply d.now s.now) }
{
    match observer::known(d, s) {
        Ok(true) => 1,
        Ok(false) => 0,
        Err(refusal) => refusal_number(refusal),
    }
}

// A head count of the listed places, a byte for each: writes the description with one group more and
// the state after it, if both fit their outputs: the number of bytes of the description times 2 ^ 32,
// and that of the state. A refusal writes nothing.
#[tactic(auto, using(crate::proofs::Answering::both_countable))]
pub fn count<'a>(
    d: &'a [u8],
    s: &'a [u8],
    places: &'a [u8],
    tokens: u32,
    described: &mut [u8],
    out: &mut [u8],
) -> i64
    ensures answer { result ≡ wrote_both_number (both_answer (length described.old) (length out.old) (count_reply d.now s.now places.now tokens)) }
    ensures described { described.new ≡ description_left described.old out.old (count_reply d.now s.now places.now tokens) }
    ensures output { out.new ≡ state_left described.old out.old (count_reply d.now s.now places.now tokens) }
{
    both_number(observer::count(d, s, places, tokens, described, out))
}

// Writes the same state for older observers, if it fits the output: the number of bytes. A refusal
// writes nothing.
pub fn older<'a>(d: &'a [u8], s: &'a [u8], out: &mut [u8]) -> i64
    ensures answer { result ≡ wrote_number (answer (length out.old) (older_reply d.now s.now)) }
    ensures output { out.new ≡ left out.old (older_reply d.now s.now) }
{
    wrote_number(observer::older(d, s, out))
}

// Writes the same state in edition 1, if it fits the output: the number of bytes. A refusal writes
// nothing.
pub fn dense<'a>(d: &'a [u8], s: &'a [u8], out: &mut [u8]) -> i64
    ensures answer { result ≡ wrote_number (answer (length out.old) (dense_reply d.now s.now)) }
    ensures output { out.new ≡ left out.old (dense_reply d.now s.now) }
{
    wrote_number(observer::dense(d, s, out))
}

// Writes the same state in edition 2, if it fits the output: the number of bytes. A refusal writes
// nothing.
pub fn sparse<'a>(d: &'a [u8], s: &'a [u8], out: &mut [u8]) -> i64
    ensures answer { result ≡ wrote_number (answer (length out.old) (sparse_reply d.now s.now)) }
    ensures output { out.new ≡ left out.old (sparse_reply d.now s.now) }
{
    wrote_number(observer::sparse(d, s, out))
}

// What a call that writes answers, as the host gets it. A count is at most the length of the lent
// output, which is below 2 ^ 63.
fn wrote_number(wrote: Result<usize, Refusal>) -> i64
    requires { Countable (reply wrote) }
    ensures { result ≡ wrote_number (reply wrote) }
{
    match wrote {
        Ok(count) => count as i64,
        Err(refusal) => refusal_number(refusal),
    }
}

// What a head count answers, as the host gets it. No description and no state is so long that the
// two counts do not fit one number.
fn both_number(wrote: Result<(usize, usize), Refusal>) -> i64
    requires { BothCountable (reply wrote) }
    ensures { result ≡ wrote_both_number (reply wrote) }
{
    match wrote {
        Ok((description, state)) => (description * 4294967296 + state) as i64,
        Err(refusal) => refusal_number(refusal),
    }
}

// A refusal, as the host gets it.
fn refusal_number(refusal: Refusal) -> i64
    ensures { result ≡ refusal_number (number refusal) }
{
    -(refusal.number() as i64)
}
