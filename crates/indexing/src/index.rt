// The index of a close: the places of the blockers that may cover a case at a level, with the low halves of their masks side by side. It may list more
// places than the level has: each is looked up before it counts.
ghost use Rattle.std.specs.Prelude.{◌≡◌, ◌-◌, ◌≤◌, length};
ghost use Rattle.lists.specs.Lists.{any};
ghost use Rattle.machine.specs.Machine.{covers as covers_case};
ghost use Rattle.machine.specs.Lent.{blockers_from, unstamped_room};
ghost use Rattle.indexing.specs.Index.{Index as IsIndex, Lists};

use crate::searching::{self, Containing};
use blockers::Level;
use blockers::reasons::Blockers;

// How many places are listed, and before which place they are all those of the level: the number of blockers, unless the room was too small.
#[derive(Clone, Copy)]
pub struct Extent {
    pub end: usize,
    pub upto: usize,
}

// Lists the places of this level or more in lent tables, as far as there is room and 32 bits hold a place.
pub fn gather(blockers: &Blockers<'_>, low: &mut [u32], places: &mut [u32], level: Level) -> Extent
    requires { (length blockers.now.masks.now ≤ length blockers.now.levels.now) × (length low.old ≡ length places.old) }
    ensures { IsIndex level.0 (length blockers.now.masks.now) result.upto result.end blockers.now.masks.now blockers.now.levels.now low.new places.new }
{
    let mut end = 0;
    for place in 0..blockers.masks.len() {
        if Level(blockers.levels[place]) < level {
            continue;
        }
        if low.len() <= end || 4294967295 < place {
            return Extent { end, upto: place };
        }
        low[end] = searching::low_half(blockers.masks[place]);
        // the test above proves that it fits
        places[end] = place as u32;
        end += 1;
    }
    Extent {
        end,
        upto: blockers.masks.len(),
    }
}

// Whether one of the blockers from `from` on covers the case at this level.
fn is_covered_from(blockers: &Blockers<'_>, from: usize, level: Level, case: u64) -> bool
    requires { length blockers.now.masks.now ≤ length blockers.now.levels.now }
    ensures { result ≡ any (covers_case level.0 case)
        (blockers_from (unstamped_room blockers.now.masks.now blockers.now.levels.now) (length blockers.now.masks.now - from) from) }
{
    for place in from..blockers.masks.len() {
        if blockers.covers_at(place, level, case) {
            return true;
        }
    }
    false
}

// Whether one of the blockers covers the case at this level. Only those that the lent tables list are asked, and those that they do not reach.
pub fn is_covered(
    blockers: &Blockers<'_>,
    low: &[u32],
    places: &[u32],
    listed: Extent,
    level: Level,
    case: u64,
) -> bool
    requires { IsIndex level.0 (length blockers.now.masks.now) listed.upto listed.end blockers.now.masks.now blockers.now.levels.now low.now places.now }
    ensures { result ≡ any (covers_case level.0 case)
        (blockers_from (unstamped_room blockers.now.masks.now blockers.now.levels.now) (length blockers.now.masks.now) 0) }
{
    let half = Containing(searching::low_half(case));
    // the place goes on by hand, as in the search itself: sixteen are tested at once
    let mut from = 0;
    while let Some(i) = searching::next(low, from, listed.end, &half) {
        if blockers.covers_at(places[i] as usize, level, case) {
            return true;
        }
        from = i + 1;
    }
    is_covered_from(blockers, listed.upto, level, case)
}

// The low halves of the masks that are listed, and their places; how many they are, and before which place they are all those of the level: the number of
// blockers, unless the room was too small.
#[derive(Drop)]
pub struct Index<const N: usize> {
    low: [u32; N],
    places: [u32; N],
    end: usize,
    upto: usize,
}

impl<const N: usize> Index<N> {
    // One that lists nothing.
    pub fn new() -> Self
        ensures { (result.end ≡ 0) × (result.upto ≡ 0) }
    {
        Index {
            low: [0; N],
            places: [0; N],
            end: 0,
            upto: 0,
        }
    }

    // Lists the places of this level or more, as far as there is room and 32 bits hold a place.
    pub fn gather(&mut self, blockers: &Blockers<'_>, level: Level)
        requires { length blockers.now.masks.now ≤ length blockers.now.levels.now }
        ensures { Lists level.0 blockers.now.masks.now blockers.now.levels.now self.new }
    {
        let listed = gather(blockers, &mut self.low, &mut self.places, level);
        self.end = listed.end;
        self.upto = listed.upto;
    }

    // Whether one of the blockers covers the case at this level. Only those that the index lists are asked, and those that it does not reach.
    pub fn is_covered(&self, blockers: &Blockers<'_>, level: Level, case: u64) -> bool
        requires { Lists level.0 blockers.now.masks.now blockers.now.levels.now self.now }
        ensures { result ≡ any (covers_case level.0 case)
            (blockers_from (unstamped_room blockers.now.masks.now blockers.now.levels.now) (length blockers.now.masks.now) 0) }
    {
        let listed = Extent {
            end: self.end,
            upto: self.upto,
        };
        is_covered(blockers, &self.low, &self.places, listed, level, case)
    }
}
