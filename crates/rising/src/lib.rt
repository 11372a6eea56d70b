// The rises as 01 says them: each blocker's backward sets are asked of the whole table, and the table closes up at each rise. Where few blockers are held
// nothing is faster, and it is the way for tables that no run made.
#![tactic(auto)]

ghost use Rattle.std.specs.Prelude.{◌≡◌, ◌<◌, length};
ghost use Rattle.machine.specs.Machine.{rises as rises_test};
ghost use Rattle.machine.specs.Lent.{blocker_at, unstamped_room};
ghost use Rattle.machine.specs.Runs.{system_of};
ghost use Rattle.blockers.specs.Room.{HoldsRoom, table_of};
ghost use Rattle.blockers.specs.Tables.{held_in, room_in, SameRoom};
ghost use Rattle.rising.specs.Risen.{risen_at, risen_by, Becomes};

use automata::backward::backward;
use automata::image::{Image, Symbol};
use blockers::Level;
use blockers::reasons::Blockers;
use blockers::room::BlockerRoom;

// Whether the blocker at the place is of exactly this level and each of its backward sets is blocked there.
fn rises(image: &Image<'_>, blockers: &Blockers<'_>, level: Level, place: usize) -> bool
    requires { (place < length blockers.now.masks.now) × (place < length blockers.now.levels.now) }
    ensures { result ≡ rises_test (system_of image.now) (held_in blockers.now) level.0
        (blocker_at (unstamped_room blockers.now.masks.now blockers.now.levels.now) place) }
{
    if Level(blockers.levels[place]) != level {
        return false;
    }
    let head = image.head();
    let mask = blockers.masks[place];
    for s in 0..head.symbols {
        let p = backward(image, Symbol(s), mask).set;
        if !blockers.block(head.initial, level, p) {
            return false;
        }
    }
    true
}

// In table order, each blocker of this level that can rise does so; answers how many blockers are then held. A rise may close up the table before the
// risen blocker, so the walk goes on behind where that one then stands, which no range says.
fn rise_level(image: &Image<'_>, room: &mut BlockerRoom<'_>, held: usize, level: Level) -> usize
    requires { HoldsRoom held (room_in room.old) × (level.0 < 4294967295) }
    ensures risen { Becomes held (risen_at (system_of image.now) level.0 (table_of held (room_in room.old))) (room_in room.old) result (room_in room.new) }
    ensures same { SameRoom room.old room.new }
{
    let mut count = held;
    let mut place: usize = 0;
    while place < count {
        if rises(image, &room.held(count), level, place) {
            let kept = room.rise(count, place);
            count = kept.held;
            place = kept.place + 1;
            continue;
        }
        place += 1;
    }
    count
}

// The rises at each level from 1 to `top`, one level after another; answers how many blockers are then held.
pub fn rise_levels(image: &Image<'_>, room: &mut BlockerRoom<'_>, held: usize, top: Level) -> usize
    requires { HoldsRoom held (room_in room.old) × (top.0 < 4294967295) }
    ensures risen { Becomes held (risen_by (system_of image.now) top.0 (table_of held (room_in room.old))) (room_in room.old) result (room_in room.new) }
    ensures same { SameRoom room.old room.new }
{
    let mut count = held;
    for level in 1..=top.0 {
        count = rise_level(image, room, count, Level(level));
    }
    count
}
