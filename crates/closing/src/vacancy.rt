// The lowest level that holds no blocker. Where the levels are few, or more than there are marks, each is searched for; else those that hold one are marked
// in one pass.
ghost use Rattle.std.specs.Prelude.{◌≡◌, ◌<◌, eqb, false, not, length, get_or};
ghost use Rattle.lists.specs.Tests.{neg};
ghost use Rattle.lists.specs.Lists.{any, first_from};
ghost use Rattle.closing.specs.Close.{level_of};
ghost use Rattle.closing.specs.ByIndex.{Marked};

use blockers::reasons::none_at;
use blockers::{Level, sizes};

// A mark for each of these levels that has a place.
fn marked(levels: &[u32]) -> [bool; sizes::MARKS]
    ensures { Marked levels.now result }
{
    let mut marks = [false; sizes::MARKS];
    for level in levels {
        // as Rust, std has no `usize::from` of 32 bits
        let place = *level as usize;
        if sizes::MARKS <= place {
            continue;
        }
        marks[place] = true;
    }
    marks
}

// Whether the level has no mark.
fn is_unmarked(marks: &[bool; sizes::MARKS], level: Level) -> bool
    requires { level.0 < length marks.now }
    ensures { result ≡ not (get_or marks.now level.0 false) }
{
    // as Rust, std has no `usize::from` of 32 bits
    !marks[level.0 as usize]
}

// The lowest level from 1 to `top` that none of these levels is.
pub fn lowest_none(levels: &[u32], top: Level) -> Option<Level>
    requires { top.0 < 4294967295 }
    ensures { level_of result ≡ first_from (λ level. neg (any (λ other. eqb other level) levels.now)) top.0 1 }
{
    if sizes::MARKED_LEVELS <= top.0 && (top.0 as usize) < sizes::MARKS {
        let marks = marked(levels);
        return (1..top.0 + 1)
            .find(|level| is_unmarked(&marks, Level(*level)))
            .map(Level);
    }
    (1..top.0 + 1)
        .find(|level| none_at(levels, Level(*level)))
        .map(Level)
}
