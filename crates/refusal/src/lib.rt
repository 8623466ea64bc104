// Why a question has no answer: the refusals that all crates share, and their numbers (docs/TABLES.md, "Answers"). Within
// the library a refusal is a value of this type; callers in other languages are handed its number.
#![tactic(auto)]

ghost use Rattle.std.specs.Prelude.{◌≡◌};
ghost use Rattle.refusal.specs.Number.{number_of};

// Where a question of one crate has several reasons to refuse, the answer is the one with the smallest number (but see
// docs/DECISIONS.md, 4 and 18). They stand here in that order.
#[derive(Clone, Copy, Debug, PartialEq, Eq)]
pub enum Refusal {
    WrongRanges = 1,
    PointerNotMapped = 2,
    WrongPointerSignature = 3,
    WrongPointerOemId = 4,
    WrongPointerChecksum = 5,
    RootNotMapped = 6,
    WrongSignature = 7,
    WrongOemId = 8,
    WrongTableId = 9,
    WrongChecksum = 10,
    TooShort = 11,
    NoValidTable = 12,
    NotThere = 13,
    UnknownSpaceOrSize = 14,
    InconsistentEntry = 15,
    WrongEntryField = 16,
    BufferTooShort = 17,
    PointerNotFound = 18,
}

impl From<Refusal> for u32 {
    ghost from_gives = { λ r n. n ≡ number_of r };

    fn from(refusal: Refusal) -> u32 {
        refusal as u32
    }
}
