// Why a case is blocked at a level: the first blocker in table order that covers it, or at level 0 the lowest initial state that it lacks. Of masks and levels
// of unlike length the shorter says how many blockers there are.
ghost use Rattle.std.specs.Prelude.{◌≡◌, [], ◌∷◌, ◌+◌, ◌≤◌, ◌<◌, min, length, eqb};
ghost use Rattle.lists.specs.Tests.{neg};
ghost use Rattle.lists.specs.Lists.{any};
ghost use Rattle.masks.specs.Sets.{lowest_absent};
ghost use Rattle.machine.specs.Machine.{covers as covers_case, blocked};
ghost use Rattle.machine.specs.Lent.{blocker_at, blockers_from, unstamped_room};
ghost use Rattle.machine.specs.Why.{first_covering, absent_reason, why as why_blocked};
ghost use Rattle.blockers.specs.Room.{Holds};
ghost use Rattle.blockers.specs.Answers.{reason_of, Skips};
ghost use Rattle.blockers.specs.Tables.{held_in};

use crate::{Level, covers, one_of_four};
use masks::State;

// The blockers that are held, in table order: their masks, and beside them their levels.
#[derive(Clone, Copy)]
pub struct Blockers<'a> {
    pub masks: &'a [u64],
    pub levels: &'a [u32],
}

// The place of a blocker and its level; or an initial state.
#[derive(Clone, Copy)]
pub enum Reason {
    ByBlocker(usize, Level),
    ByStart(State),
}

// Whether no place holds this level.
pub fn none_at(levels: &[u32], level: Level) -> bool
    ensures { result ≡ neg (any (λ other. eqb other level.0) levels.now) }
{
    !levels.contains(&level.0)
}

impl<'a> Blockers<'a> {
    // How many they are: of masks and levels the shorter says.
    pub fn count(&self) -> usize
        ensures { result ≡ min (length self.now.masks.now) (length self.now.levels.now) }
    {
        self.masks.len().min(self.levels.len())
    }

    // Whether the blocker at a place covers the case.
    pub fn covers_at(&self, place: usize, least: Level, case: u64) -> bool
        requires { (place < length self.now.masks.now) × (place < length self.now.levels.now) }
        ensures { result ≡ covers_case least.0 case (blocker_at (unstamped_room self.now.masks.now self.now.levels.now) place) }
    {
        covers(self.masks[place], Level(self.levels[place]), least, case)
    }

    // Whether one of the four blockers from `at` on covers the case.
    fn four_cover(&self, at: usize, level: Level, case: u64) -> bool
        requires { Holds (at + 4) self.now.masks.now self.now.levels.now }
        ensures { result ≡ any (covers_case level.0 case) (blockers_from (unstamped_room self.now.masks.now self.now.levels.now) 4 at) }
    {
        let first = self.covers_at(at, level, case);
        let second = self.covers_at(at + 1, level, case);
        let third = self.covers_at(at + 2, level, case);
        let fourth = self.covers_at(at + 3, level, case);
        one_of_four(first, second, third, fourth)
    }

    // The first place from `from` on before which no blocker covers the case, as far as fours of blockers tell: it ends at the first four of which one covers
    // the case, or where fewer than eight are left. Four are tested before a branch asks, so that the compiler tests them at once. The place is the answer, so it is
    // counted by hand.
    pub fn skip(&self, from: usize, level: Level, case: u64) -> usize
        requires { from ≤ min (length self.now.masks.now) (length self.now.levels.now) }
        ensures { Skips self.now.masks.now self.now.levels.now level.0 case from result }
    {
        let count = self.count();
        let mut i = from;
        while 8 <= count - i {
            if self.four_cover(i, level, case) {
                return i;
            }
            if self.four_cover(i + 4, level, case) {
                return i + 4;
            }
            i += 8;
        }
        i
    }

    // The same from the first place on. Of fewer than eight blockers none is skipped, without a call.
    pub fn skip_first(&self, level: Level, case: u64) -> usize
        ensures { Skips self.now.masks.now self.now.levels.now level.0 case 0 result }
    {
        if self.count() < 8 {
            return 0;
        }
        self.skip(0, level, case)
    }

    // The next place behind this one to be looked at: the next of its four, or where `skip` leads to.
    pub fn after(&self, place: usize, level: Level, case: u64) -> usize
        requires { place < min (length self.now.masks.now) (length self.now.levels.now) }
        ensures { Skips self.now.masks.now self.now.levels.now level.0 case (place + 1) result }
    {
        let next = place + 1;
        if next % 4 != 0 {
            return next;
        }
        self.skip(next, level, case)
    }

    // The blocker at the place if it covers the case, or nothing.
    pub fn reason_at(&self, place: usize, level: Level, case: u64) -> Option<Reason>
        requires { (place < length self.now.masks.now) × (place < length self.now.levels.now) }
        ensures { reason_of result ≡ first_covering level.0 case place (blocker_at (unstamped_room self.now.masks.now self.now.levels.now) place ∷ []) }
    {
        if self.covers_at(place, level, case) {
            return Some(Reason::ByBlocker(place, Level(self.levels[place])));
        }
        None
    }

    // The first blocker that covers the case, or nothing.
    fn first_covering(&self, level: Level, case: u64) -> Option<Reason>
        ensures { reason_of result ≡ first_covering level.0 case 0 (held_in self.now) }
    {
        let count = self.count();
        for i in self.skip_first(level, case)..count {
            let here = self.reason_at(i, level, case);
            if here.is_some() {
                return here;
            }
        }
        None
    }

    // Why the case is blocked at the level, for every input; nothing where it is not.
    pub fn why(&self, initial: u64, level: Level, case: u64) -> Option<Reason>
        ensures { reason_of result ≡ why_blocked initial (held_in self.now) level.0 case }
    {
        if level == Level(0) {
            return lowest_initial(initial, case);
        }
        self.first_covering(level, case)
    }

    // Whether the case is blocked at the level.
    pub fn block(&self, initial: u64, level: Level, case: u64) -> bool
        ensures { result ≡ blocked initial (held_in self.now) level.0 case }
    {
        self.why(initial, level, case).is_some()
    }
}

// The lowest initial state that the case lacks, or nothing.
pub fn lowest_initial(initial: u64, case: u64) -> Option<Reason>
    ensures { reason_of result ≡ absent_reason (lowest_absent initial case) }
{
    if masks::subset(initial, case) {
        return None;
    }
    Some(Reason::ByStart(masks::lowest_absent(initial, case)))
}
