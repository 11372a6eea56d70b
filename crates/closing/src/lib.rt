// The close: at each level the blockers that can rise do so, and then the lowest level that holds none is looked for.
#![tactic(auto)]

mod vacancy; // vacancy.rt: the lowest level that holds no blocker

ghost use Rattle.std.specs.Prelude.{◌<◌, ◌≡◌, length, take};
ghost use Rattle.machine.specs.Runs.{system_of};
ghost use Rattle.blockers.specs.Room.{Holds, HoldsRoom, table_of};
ghost use Rattle.blockers.specs.Tables.{room_in, SameRoom};
ghost use Rattle.rising.specs.Risen.{risen_by, Becomes};
ghost use Rattle.sinking.specs.Sunk.{AllRisen};
ghost use Rattle.closing.specs.Close.{Closes};
ghost use Rattle.closing.specs.ByIndex.{NoneLeft};

use automata::image::Image;
use blockers::reasons::none_at;
use blockers::room::BlockerRoom;
use blockers::{Level, sizes};

// How many blockers are held after a close, and whether they are the frame, so that the automaton is empty. The count stands in either case, so it is no Option.
#[derive(Clone, Copy)]
pub struct Closed {
    pub held: usize,
    pub empty: bool,
}

// Whether the rises go by an index: where many blockers are held and none is of level 0, as in every table that a run made.
fn is_indexed(levels: &[u32]) -> bool
    ensures { NoneLeft levels.now result }
{
    sizes::INDEXED_BLOCKERS <= levels.len() && none_at(levels, Level(0))
}

// The rises by an index of the first `held` blockers. The masks stay: a field is not lent as `&` beside one that is lent as `&mut`.
fn sink(image: &Image<'_>, masks: &mut [u64], levels: &mut [u32], held: usize, top: Level)
    requires { Holds held masks.old levels.old × (top.0 < 4294967295) }
    ensures masks { masks.new ≡ masks.old }
    ensures risen { AllRisen (system_of image.now) top.0 (length (take held masks.old)) (take held masks.old) levels.old levels.new }
{
    sinking::rise_in_room(image, &masks[..held], levels, top);
}

// The rises at each level from 1 to `top`; answers how many blockers are then held. By an index, those that leave sink to level 0 and close up in the end.
fn rise_all(image: &Image<'_>, room: &mut BlockerRoom<'_>, held: usize, top: Level) -> usize
    requires { HoldsRoom held (room_in room.old) × (top.0 < 4294967295) }
    ensures risen { Becomes held (risen_by (system_of image.now) top.0 (table_of held (room_in room.old))) (room_in room.old) result (room_in room.new) }
    ensures same { SameRoom room.old room.new }
{
    if !is_indexed(room.held(held).levels) {
        return rising::rise_levels(image, room, held, top);
    }
    sink(image, room.masks, room.levels, held, top);
    room.frame(held, Level(0))
}

// The close of the level `top`: the rises at each level, and where a level then holds no blocker, only the frame above the lowest such level stays.
pub fn close(image: &Image<'_>, room: &mut BlockerRoom<'_>, held: usize, top: Level) -> Closed
    requires { HoldsRoom held (room_in room.old) × (top.0 < 4294967295) }
    ensures closes { Closes (system_of image.now) top.0 held (room_in room.old) result (room_in room.new) }
    ensures same { SameRoom room.old room.new }
{
    let count = rise_all(image, room, held, top);
    let Some(level) = vacancy::lowest_none(room.held(count).levels, top) else {
        return Closed {
            held: count,
            empty: false,
        };
    };
    let left = room.frame(count, level);
    Closed {
        held: left,
        empty: true,
    }
}
