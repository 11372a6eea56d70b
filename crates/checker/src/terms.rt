// The terms of a run, and what is refused: the image, the rooms and the terms.
ghost use Rattle.std.specs.Prelude.{◌≡◌, IfOk};
ghost use Rattle.machine.specs.Runs.{check_run};
ghost use Rattle.checker.specs.Stage.{lent_in, terms_in, terms_given};
ghost use Rattle.checker.specs.Calls.{number_checked};

use automata::image::{Image, read_image};
use automata::refusal::Refusal;
use blockers::room::BlockerRoom;
use wordroom::WordRoom;

// What a call is given beside the image and the rooms. These are the caller's numbers, so each may be any.
#[derive(Clone, Copy)]
pub struct Terms<'a> {
    pub hints: &'a [u64],
    pub allowance: u64,
    pub edition: u64,
    pub way: u64,
}

// What a start is worth that is final already: a word, or no finding.
#[derive(Clone, Copy, PartialEq, Eq)]
pub enum Edition {
    First = 1,
    Second = 2,
}

impl TryFrom<u64> for Edition {
    type Error = Refusal;

    ghost use Rattle.checker.specs.Calls.{EditionOf};

    ghost try_from_gives = { EditionOf };

    fn try_from(number: u64) -> Result<Self, Refusal> {
        match number {
            1 => Ok(Edition::First),
            2 => Ok(Edition::Second),
            _ => Err(Refusal::UnknownEdition),
        }
    }
}

// How a blocker grows: by its states, or through a hitting set.
#[derive(Clone, Copy, PartialEq, Eq)]
pub enum Way {
    ByStates = 0,
    ByHittingSet = 1,
}

impl TryFrom<u64> for Way {
    type Error = Refusal;

    ghost use Rattle.checker.specs.Calls.{WayOf};

    ghost try_from_gives = { WayOf };

    fn try_from(number: u64) -> Result<Self, Refusal> {
        match number {
            0 => Ok(Way::ByStates),
            1 => Ok(Way::ByHittingSet),
            _ => Err(Refusal::UnknownWay),
        }
    }
}

impl From<Way> for u64 {
    ghost use Rattle.std.specs.Prelude.{◌≡◌};
    ghost use Rattle.checker.specs.Stage.{number_of_way};

    ghost from_gives = { λ way number. number ≡ number_of_way way };

    fn from(way: Way) -> u64 {
        // the number that stands beside the variant
        way as u64
    }
}

// The terms that no check refuses.
#[derive(Clone, Copy)]
pub(crate) struct Given<'a> {
    pub hints: &'a [u64],
    pub allowance: u64,
    pub edition: Edition,
    pub way: Way,
}

// The most places of a room or of the hint table.
const MOST_PLACES: usize = 65536;

// The image and what is given with it, or the first check that applies: of the image, 20 to 27; 30 where the tables of one room differ in length, 31 where a room
// or the hint table has too many places, 36 where the edition is neither 1 nor 2, or 37 where the way is neither 0 nor 1.
pub(crate) fn check_run<'a, 'b>(
    image: &'a [u8],
    room: &BlockerRoom<'_>,
    word: &WordRoom<'_>,
    terms: &Terms<'b>,
) -> Result<(Image<'a>, Given<'b>), Refusal>
    ensures number { number_checked result ≡ check_run image.now (lent_in room.now word.now) (terms_in terms.now) }
    ensures image { IfOk result (λ passed. passed.0 ≡ image.now) }
    ensures given { IfOk result (λ passed. terms_given passed.1 ≡ terms_in terms.now) }
{
    let image = read_image(image)?;
    if room.masks.len() != room.levels.len()
        || room.masks.len() != room.entered.len()
        || word.cases.len() != word.symbols.len()
    {
        return Err(Refusal::UnevenRoom);
    }
    if MOST_PLACES < room.masks.len()
        || MOST_PLACES < word.cases.len()
        || MOST_PLACES < terms.hints.len()
    {
        return Err(Refusal::LargeTable);
    }
    let given = Given {
        hints: terms.hints,
        allowance: terms.allowance,
        edition: Edition::try_from(terms.edition)?,
        way: Way::try_from(terms.way)?,
    };
    Ok((image, given))
}
