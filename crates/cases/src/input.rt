// Numbers of the input, and parts of it that stand after their lengths.
ghost use Rattle.std.specs.Prelude.{◌≤◌, length};

// The first bytes, or all if there are fewer.
pub fn first(bytes: &[u8], count: usize) -> &[u8] {
    if count <= bytes.len() {
        return &bytes[0..count];
    }
    bytes
}

// The part that stands after its length, or what there is of it if it is cut short.
pub fn part(input: &[u8], at: usize) -> &[u8] {
    let start = after(input, at);
    first(&input[start..], number_at(input, at) as usize)
}

// The position after such a part.
pub fn end_of(input: &[u8], at: usize) -> usize {
    after(input, at) + part(input, at).len()
}

// The number at a position, or 0 if there is none.
pub fn number_at(input: &[u8], at: usize) -> u32 {
    match numbers::read_number(input, at) {
        Some((number, _)) => number,
        None => 0,
    }
}

// The position after the number at a position, or the input's end if there is none.
pub fn after(input: &[u8], at: usize) -> usize
    ensures { result ≤ length input.now }
{
    let Some((_, next)) = numbers::read_number(input, at) else {
        return input.len();
    };
    if input.len() < next {
        return input.len();
    }
    next
}
