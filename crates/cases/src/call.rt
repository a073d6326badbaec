// What a case asks.

// A call of the observer, or what its description is read as.
#[derive(Clone, Copy, PartialEq, Eq)]
pub enum Call {
    Fresh,
    Record,
    Judge,
    Known,
    Describe,
    Changed,
    Count,
    Older,
    Dense,
    Sparse,
    // a number that names no call: known on bytes, the saved observer on values
    Other,
}

impl From<u32> for Call {
    fn from(number: u32) -> Call {
        match number {
            1 => Call::Fresh,
            2 => Call::Record,
            3 => Call::Judge,
            4 => Call::Known,
            5 => Call::Describe,
            6 => Call::Changed,
            7 => Call::Count,
            8 => Call::Older,
            9 => Call::Dense,
            10 => Call::Sparse,
            _ => Call::Other,
        }
    }
}
