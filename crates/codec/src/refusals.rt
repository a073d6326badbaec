// The refusals: which of the "Questions put in turn" of 01 and 02 was answered no.
ghost use Rattle.std.specs.Prelude.{◌≡◌};
ghost use Rattle.codec.specs.Refusals.{number};

// Each by its name; `number` is the number that the papers give it.
#[derive(Clone, Copy, Debug, PartialEq, Eq)]
pub enum Refusal {
    // 1: "Is each stored number complete, shortest and small enough?"
    IllFormed,
    // 2: "Is the description's edition 1?"
    OtherEdition,
    // 3: "Are sizes, list lengths, groups and depth within bounds (arcs and terms at most P)?"
    OutOfBounds,
    // 4: "Is each mark, place number and value within its range?"
    OutOfRange,
    // 5: "Do members, arcs and terms keep their order and the no-zero rules?"
    OutOfOrder,
    // 6: "Does each place appear exactly once?"
    NotOnce,
    // 7: "Is each own share at least 0, and 0 for a group with no direct place?"
    UnfitShare,
    // 8: "Do the bytes end with the description?"
    BytesLeft,
    // 9: "Is the state well formed (its edition, same number rules, no byte left) and fitting?"
    UnfitState,
    // 10: "Is the event number 1 to T?"
    NoEvent,
    // 11: "Is the event possible?"
    Impossible,
    // 12: "Is it in range?"
    OverRange,
    // 13: "Does the result fit the lent output?"
    NoRoom,
    // 14: does the list of a head count name loose places, each once, and at least one?
    NotLoose,
    // 15: is the head count at least the estimates there, and within the bound?
    Miscounted,
    // 16: is there a group left for a head count?
    NoGroupLeft,
    // 17: are all numbers of a state within the bound of older observers?
    TooLarge,
    // 18: are the places of a state's pairs in order and range, and their estimates not zero?
    UnfitPair,
}

impl Refusal {
    // The number that callers are told.
    pub fn number(self) -> u32
        ensures { result ≡ number self }
    {
        match self {
            Refusal::IllFormed => 1,
            Refusal::OtherEdition => 2,
            Refusal::OutOfBounds => 3,
            Refusal::OutOfRange => 4,
            Refusal::OutOfOrder => 5,
            Refusal::NotOnce => 6,
            Refusal::UnfitShare => 7,
            Refusal::BytesLeft => 8,
            Refusal::UnfitState => 9,
            Refusal::NoEvent => 10,
            Refusal::Impossible => 11,
            Refusal::OverRange => 12,
            Refusal::NoRoom => 13,
            Refusal::NotLoose => 14,
            Refusal::Miscounted => 15,
            Refusal::NoGroupLeft => 16,
            Refusal::TooLarge => 17,
            Refusal::UnfitPair => 18,
        }
    }
}

// The number that callers are told, for an answer whose refusal may be any number.
impl From<Refusal> for u32 {
    ghost from_gives = { λ refusal n. n ≡ number refusal };

    fn from(refusal: Refusal) -> u32 {
        refusal.number()
    }
}
