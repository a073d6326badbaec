// The host's functions under C's names: each answers what the function of crates/host answers, and promises the same.
#![tactic(auto)]

ghost use Rattle.std.specs.Prelude.{◌≡◌, length};
ghost use Rattle.codec.specs.Output.{answer, left, both_answer, description_left, state_left};
ghost use Rattle.net.specs.Answers.{answer_of};
ghost use Rattle.observer.specs.Bytes.{fresh_reply, record_reply, known_reply, judge_reply, count_reply, older_reply, dense_reply, sparse_reply};
ghost use Rattle.host.specs.Numbers.{wrote_number, wrote_both_number, answer_number, known_number};

// Writes the fresh state of the net that the bytes describe, if it fits the output: the number of
// bytes. A refusal writes nothing.
#[unsafe(no_mangle)]
pub extern "C" fn fresh(d: &[u8], out: &mut [u8]) -> i64
    ensures value { result ≡ wrote_number (answer (length out.old) (fresh_reply d.now)) }
    ensures out_after { out.new ≡ left out.old (fresh_reply d.now) }
{
    host::fresh(d, out)
}

// Writes the state after an event of the net that the first bytes describe, at the state that the
// others are, if it fits the output: the number of bytes. A refusal writes nothing.
#[unsafe(no_mangle)]
pub extern "C" fn record<'a>(d: &'a [u8], s: &'a [u8], event: u32, out: &mut [u8]) -> i64
    ensures value { result ≡ wrote_number (answer (length out.old) (record_reply d.now s.now event)) }
    ensures out_after { out.new ≡ left out.old (record_reply d.now s.now event) }
{
    host::record(d, s, event, out)
}

// Judges an event: 0 if it is allowed, the number of the limit that holds it if it is held.
#[unsafe(no_mangle)]
pub extern "C" fn judge<'a>(d: &'a [u8], s: &'a [u8], event: u32) -> i64
    ensures { result ≡ answer_number (answer_of (judge_reply d.now s.now event)) }
{
    host::judge(d, s, event)
}

// Does the observer know where all tokens are? 1 or 0.
#[unsafe(no_mangle)]
pub extern "C" fn known<'a>(d: &'a [u8], s: &'a [u8]) -> i64
    ensures { result ≡ known_number (known_reply d.now s.now) }
{
    host::known(d, s)
}

// A head count of the listed places, a byte for each: writes the description with one group more and
// the state after it, if both fit their outputs: the number of bytes of the description times 2 ^ 32,
// and that of the state. A refusal writes nothing.
#[unsafe(no_mangle)]
pub extern "C" fn count<'a>(
    d: &'a [u8],
    s: &'a [u8],
    places: &'a [u8],
    tokens: u32,
    described: &mut [u8],
    out: &mut [u8],
) -> i64
    ensures answer { result ≡ wrote_both_number (both_answer (length described.old) (length out.old) (count_reply d.now s.now places.now tokens)) }
    ensures described { described.new ≡ description_left described.old out.old (count_reply d.now s.now places.now tokens) }
    ensures output { out.new ≡ state_left described.old out.old (count_reply d.now s.now places.now tokens) }
{
    host::count(d, s, places, tokens, described, out)
}

// Writes the same state for older observers, if it fits the output: the number of bytes. A refusal
// writes nothing.
#[unsafe(no_mangle)]
pub extern "C" fn older<'a>(d: &'a [u8], s: &'a [u8], out: &mut [u8]) -> i64
    ensures answer { result ≡ wrote_number (answer (length out.old) (older_reply d.now s.now)) }
    ensures output { out.new ≡ left out.old (older_reply d.now s.now) }
{
    host::older(d, s, out)
}

// Writes the same state in edition 1, if it fits the output: the number of bytes. A refusal writes
// nothing.
#[unsafe(no_mangle)]
pub extern "C" fn dense<'a>(d: &'a [u8], s: &'a [u8], out: &mut [u8]) -> i64
    ensures answer { result ≡ wrote_number (answer (length out.old) (dense_reply d.now s.now)) }
    ensures output { out.new ≡ left out.old (dense_reply d.now s.now) }
{
    host::dense(d, s, out)
}

// Writes the same state in edition 2, if it fits the output: the number of bytes. A refusal writes
// nothing.
#[unsafe(no_mangle)]
pub extern "C" fn sparse<'a>(d: &'a [u8], s: &'a [u8], out: &mut [u8]) -> i64
    ensures answer { result ≡ wrote_number (answer (length out.old) (sparse_reply d.now s.now)) }
    ensures output { out.new ≡ left out.old (sparse_reply d.now s.now) }
{
    host::sparse(d, s, out)
}
