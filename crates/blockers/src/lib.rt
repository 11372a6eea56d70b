// The blocker room: three lent tables, masks, levels and the steps with which the blockers entered, of which the first `held` places are in use. What only
// asks is lent masks and levels alone.
#![tactic(auto)]

pub mod room; // room.rt: the three tables, and what enters, rises and leaves
pub mod reasons; // reasons.rt: the blockers that are held, and why a case is blocked at a level
pub mod sizes; // sizes.rt: from which sizes on tables of one's own pay

ghost use Rattle.std.specs.Prelude.{◌≡◌, ◌+◌, ◌<◌};
ghost use Rattle.lists.specs.Tests.{◌or◌};
ghost use Rattle.machine.specs.Machine.{covers as covers_case};
ghost use Rattle.machine.specs.Lent.{blocker_of};

// A level's number.
#[derive(Clone, Copy, PartialEq, Eq, PartialOrd, Ord)]
pub struct Level(pub u32);

impl Level {
    // The level one above.
    pub fn above(self) -> Level
        requires { self.0 < 4294967295 }
        ensures { result.0 ≡ self.0 + 1 }
    {
        Level(self.0 + 1)
    }
}

// Whether one of four tests held. None waits for another, so that the compiler can test several places at once.
fn one_of_four(a: bool, b: bool, c: bool, d: bool) -> bool
    ensures { result ≡ a or b or c or d }
{
    a | b | (c | d)
}

// Whether the blocker, a mask with its level, is of level `least` or more and the case is a subset of it. Neither test waits for the other.
fn covers(mask: u64, level: Level, least: Level, case: u64) -> bool
    ensures { result ≡ covers_case least.0 case (blocker_of mask level.0) }
{
    (least <= level) & masks::subset(case, mask)
}
