// The refusals of SPECIFICATION 3.4's table. Every crate that refuses answers one of these; specs/Refusal.antt has the
// number of each and when it is answered.
#![tactic(auto)]

ghost use Rattle.std.specs.Prelude.{◌≡◌};
ghost use Rattle.refusal.specs.Number.{number, number_of};

// What a call answers over C where it is accepted.
pub const ACCEPTED: u32 = 0;

// Why a call is refused.
#[derive(Clone, Copy, Debug, PartialEq, Eq)]
pub enum Refusal {
    // The library's refusals; SPECIFICATION 3.5 has the order of the tests.
    TooManyColumns = 1,
    TooManyEntries = 2,
    SliceLength = 3,
    ColumnPointers = 4,
    IndexRange = 5,
    UpperTriangle = 6,
    RowsNotRising = 7,
    CostRange = 8,
    ValueNotFinite = 9,
    MatchingRange = 10,
    NoRoot = 11,
    ExternalChoice = 12,

    // The programs' refusals.
    Banner = 20,
    SizeLine = 21,
    InputLimit = 22,
    EntryLine = 23,
    EntryCount = 24,
    RepeatedPair = 25,
    UpperEntry = 26,

    // The refusals of a lent pairing.
    IncompleteMatching = 30,
    InfeasibleDuals = 31,
    LoosePair = 32,
    NotLargest = 33,

    // The refusals of sheet files, and (43 and 46) of exponents.
    SheetCut = 40,
    SheetIndex = 41,
    PatchTwice = 42,
    ExponentRange = 43,
    PatchOrder = 44,
    NeedlessField = 45,
    ValueNotNormal = 46,
}

// The number of the table.
impl From<Refusal> for u32 {
    ghost from_gives = { λ refusal n. n ≡ number refusal };

    fn from(refusal: Refusal) -> u32 {
        refusal as u32
    }
}

// What a call answers over C: 0 where it is accepted, else the number of its refusal.
pub fn answer(outcome: Result<(), Refusal>) -> u32
    ensures { result ≡ number_of outcome }
{
    match outcome {
        Ok(()) => ACCEPTED,
        Err(refusal) => u32::from(refusal),
    }
}
