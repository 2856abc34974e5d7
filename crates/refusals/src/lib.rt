// What an operation can refuse, and the number that callers are told for it.
#![tactic(auto)]

ghost use Rattle.std.specs.Prelude.{◌≡◌};
ghost use Rattle.refusals.specs.Number.{number_of};

// Each refusal has its number as its discriminant.
#[derive(Clone, Copy, Debug, PartialEq, Eq)]
pub enum Refusal {
    // The capacity is 0 or over the limit.
    Capacity = 1,
    Family = 2,
    Parameters = 3,
    ScaleOverLimit = 4,
    SizeOverCapacity = 5,
    // Too few or too many entries or sizes, or not a count for each size.
    ListLength = 6,
    BufferTooShort = 7,
    FirstEntry = 8,
    LastEntry = 9,
    EntryOverLimit = 10,
    Overshoots = 11,
    JobTooLong = 12,
    FieldPastEnd = 13,
    TagOutOfPlace = 14,
    FieldLength = 15,
    JobKind = 16,
    Size = 17,
    // A table of another capacity than the present one.
    TableCapacity = 18,
    ParameterRange = 19,
    NoParameterPasses = 20,
    RowCount = 21,
    Count = 22,
    Blocks = 23,
    TooManyCopies = 24,
    // No list of sizes does what `Overshoots` says: the table is dual-feasible.
    NoneOvershoots = 25,
}

impl From<Refusal> for u64 {
    ghost from_gives = { λ refusal number. number ≡ number_of refusal };

    fn from(refusal: Refusal) -> u64 {
        refusal as u64
    }
}
