// What is refused, each under its number in 01 and 02.
ghost use Rattle.std.specs.Prelude.{◌≡◌};

// Why a call is refused.
#[derive(Clone, Copy, PartialEq, Eq)]
pub enum Refusal {
    ShortImage = 20,
    StateCount = 21,
    SymbolCount = 22,
    RowCount = 23,
    ImageLength = 24,
    StateSet = 25,
    Pair = 26,
    Row = 27,
    UnevenRoom = 30,
    LargeTable = 31,
    UnknownSymbol = 32,
    BrokenRecord = 33,
    ShortRoom = 35,
    UnknownEdition = 36,
    UnknownWay = 37,
}

impl From<Refusal> for u64 {
    ghost use Rattle.automata.specs.Refusals.{number_of};

    ghost from_gives = { λ refusal number. number ≡ number_of refusal };

    fn from(refusal: Refusal) -> u64 {
        // the number that stands beside the variant
        refusal as u64
    }
}
