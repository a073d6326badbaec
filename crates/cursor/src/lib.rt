// "The reader is a cursor that travels with the lent description": a struct that holds the slice and a
// position in it. Whoever calls `header_numbers` sees no cursor.
#![tactic(auto)]

ghost use Rattle.std.specs.Prelude.{◌≡◌};
ghost use Rattle.numbers.specs.Number.{number_at};
ghost use Rattle.cursor.specs.Cursors.{position_after, behind, header_numbers};

// The description that is lent, and the position of the next number.
#[derive(Clone, Copy)]
pub struct Cursor<'a> {
    pub description: &'a [u8],
    pub at: usize,
}

impl<'a> Cursor<'a> {
    // A cursor at the first byte.
    pub fn new(description: &'a [u8]) -> Cursor<'a>
        ensures { (result.description ≡ description.entry) × (result.at ≡ 0) }
    {
        Cursor { description, at: 0 }
    }

    // Takes the next number out: the cursor then stands behind it, or where it stood if none is there.
    pub fn take(&mut self) -> Option<(u32, usize)>
        ensures { (result ≡ number_at self.old.description.now self.old.at) × (self.new ≡ behind self.old) }
    {
        let at = self.at;
        let read = numbers::read_number(self.description, at);
        self.at = position_after(read, at);
        read
    }
}

// The first four numbers of a description, each as it was found.
#[derive(Clone, Copy)]
pub struct HeaderNumbers {
    pub edition: Option<(u32, usize)>,
    pub places: Option<(u32, usize)>,
    pub events: Option<(u32, usize)>,
    pub limits: Option<(u32, usize)>,
}

// "edition 1, P, T, number of limits": the four are taken out one after the other, and not yet judged.
pub fn header_numbers(description: &[u8]) -> HeaderNumbers
    ensures { result ≡ header_numbers description.now }
{
    let mut cursor = Cursor::new(description);
    let edition = cursor.take();
    let places = cursor.take();
    let events = cursor.take();
    let limits = cursor.take();
    HeaderNumbers {
        edition,
        places,
        events,
        limits,
    }
}

// The position after what was read at a position; the same one if nothing was.
fn position_after(read: Option<(u32, usize)>, at: usize) -> usize
    ensures { result ≡ position_after read at }
{
    match read {
        Some((_, next)) => next,
        None => at,
    }
}
