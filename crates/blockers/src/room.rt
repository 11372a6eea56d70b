// The three tables of the blocker room, and what enters, rises and leaves.
ghost use mir.Syntax.{w64};
ghost use mir.Val.{Fits};
ghost use Rattle.std.specs.Prelude.{ℕ, ◌≡◌, ◌+◌, ◌≤◌, ◌<◌, get_or, take};
ghost use Rattle.machine.specs.Lent.{EvenRoom, blocker_of};
ghost use Rattle.blockers.specs.Room.{Holds, HoldsRoom, put_at, cleared_between, ClosedUp, Enters, RisesAt, Frames};
ghost use Rattle.blockers.specs.Tables.{room_in, SameRoom};

use crate::reasons::Blockers;
use crate::{Level, covers};

// Masks, levels, and the steps with which the blockers entered.
#[derive(Drop)]
pub struct BlockerRoom<'a> {
    pub masks: &'a mut [u64],
    pub levels: &'a mut [u32],
    pub entered: &'a mut [u64],
}

// A blocker with the step with which it entered.
#[derive(Clone, Copy)]
struct Blocker {
    mask: u64,
    level: Level,
    step: u64,
}

// How many blockers are held once one has risen, and where that one stands.
#[derive(Clone, Copy)]
pub struct Kept {
    pub held: usize,
    pub place: usize,
}

// What the type says of the masks of a table, for the proof of `frame`: of a table in a struct the check says it nowhere else.
fn each_fits(masks: &[u64])
    ensures { (i : ℕ) → Fits w64 (get_or masks.now i 0) }
{}

impl<'a> BlockerRoom<'a> {
    // The blockers in the first `held` places.
    pub fn held(&self, held: usize) -> Blockers<'_>
        requires { Holds held self.now.masks.now self.now.levels.now }
        ensures masks { result.masks.now ≡ take held self.now.masks.now }
        ensures levels { result.levels.now ≡ take held self.now.levels.now }
    {
        Blockers {
            masks: &self.masks[..held],
            levels: &self.levels[..held],
        }
    }

    // The blocker stands at the place.
    fn put(&mut self, place: usize, blocker: Blocker)
        requires { HoldsRoom (place + 1) (room_in self.old) }
        ensures put { room_in self.new ≡ put_at (record { mask = blocker.mask; level = blocker.level.0; entered = blocker.step }) place (room_in self.old) }
        ensures same { SameRoom self.old self.new }
    {
        self.masks[place] = blocker.mask;
        self.levels[place] = blocker.level.0;
        self.entered[place] = blocker.step;
    }

    // The places from `from` to `to` hold 0.
    pub fn clear_between(&mut self, from: usize, to: usize)
        requires { HoldsRoom to (room_in self.old) }
        ensures cleared { room_in self.new ≡ cleared_between from to (room_in self.old) }
        ensures same { SameRoom self.old self.new }
    {
        if to < from {
            return;
        }
        self.masks[from..to].fill(0);
        self.levels[from..to].fill(0);
        self.entered[from..to].fill(0);
    }

    // Of the blockers from `from` to `to`, those of the level of this one or lower that are subsets of it leave: it covers them at their own level. The rest
    // close up from `start` on, and the places that become free hold 0. Answers the place behind the last that stays. Where none has left yet, nothing is
    // written. They close up in the tables that are lent: there is no heap for others.
    fn close_up(&mut self, start: usize, from: usize, to: usize, blocker: Blocker) -> usize
        requires { (start ≤ from) × (from ≤ to) × HoldsRoom to (room_in self.old) }
        ensures closed { ClosedUp (blocker_of blocker.mask blocker.level.0) start from to result (room_in self.old) (room_in self.new) }
        ensures same { SameRoom self.old self.new }
    {
        let mut kept = start;
        for i in from..to {
            let mask = self.masks[i];
            let level = Level(self.levels[i]);
            if covers(blocker.mask, blocker.level, level, mask) {
                continue;
            }
            if kept < i {
                let step = self.entered[i];
                self.put(kept, Blocker { mask, level, step });
            }
            kept += 1;
        }
        self.clear_between(kept, to);
        kept
    }

    // The mask enters at the end with its level and the step that made it, once the blockers of this level or lower that are subsets of it have left; answers
    // how many are held then. Room is judged after the leaving, so a full table is one that none has left: it is as it was, and nothing is answered.
    pub fn enter(&mut self, held: usize, mask: u64, level: Level, step: u64) -> Option<usize>
        requires { HoldsRoom held (room_in self.old) × EvenRoom (room_in self.old) }
        ensures enters { Enters held (record { mask = mask; level = level.0; entered = step }) (room_in self.old) result (room_in self.new) }
        ensures same { SameRoom self.old self.new }
    {
        let blocker = Blocker { mask, level, step };
        let end = self.close_up(0, 0, held, blocker);
        if self.masks.len() <= end {
            return None;
        }
        self.put(end, blocker);
        Some(end + 1)
    }

    // The blocker at `place` rises by one level, and others of its new level or lower that are subsets of it leave. Its step of entry stays.
    pub fn rise(&mut self, held: usize, place: usize) -> Kept
        requires { HoldsRoom held (room_in self.old) × (place < held) × (get_or self.old.levels.now place 0 < 4294967295) }
        ensures rises { RisesAt held place (room_in self.old) result.held result.place (room_in self.new) }
        ensures same { SameRoom self.old self.new }
    {
        let mask = self.masks[place];
        let level = Level(self.levels[place]).above();
        let step = self.entered[place];
        let risen = Blocker { mask, level, step };
        let stands = self.close_up(0, 0, place, risen);
        self.put(stands, risen);
        let end = self.close_up(stands + 1, place + 1, held, risen);
        Kept {
            held: end,
            place: stands,
        }
    }

    // Only the blockers above the level stay: every mask is a subset of the full one.
    pub fn frame(&mut self, held: usize, level: Level) -> usize
        requires { HoldsRoom held (room_in self.old) }
        ensures frame { Frames held level.0 (room_in self.old) result (room_in self.new) }
        ensures same { SameRoom self.old self.new }
    {
        each_fits(self.held(held).masks);
        let mask = u64::MAX;
        let step = 0;
        self.close_up(0, 0, held, Blocker { mask, level, step })
    }
}
