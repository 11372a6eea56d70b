// The second way to grow a blocker: through a hitting set. The sets that are to be met stand in a table on the stack, one at most for each row and one for I.
#![tactic(auto)]

use blockers::sizes::{SHORT_ROWS, SHORT_TABLE};
use gathering::Gathering;
use passing::Pending;

mod gathering; // gathering.rt: the sets that are to be met, each once
mod picking; // picking.rt: the states that meet them all
mod slots; // slots.rt: the slots by which sets are chained

ghost use Rattle.std.specs.Prelude.{◌≡◌, ◌≤◌, ◌<◌};
ghost use Rattle.automata.specs.Image.{row_count_of, rows_of};
ghost use Rattle.machine.specs.Runs.{system_of};
ghost use Rattle.machine.specs.Hitting.{by_hitting_set};
ghost use Rattle.blockers.specs.Tables.{held_in};

// The set that x grows to, by the sets gathered in a table that has room for them. Not inlined, so that the table takes stack only where it is used.
#[inline(never)]
fn grow_in<const SETS: usize, const SLOTS: usize>(pending: &Pending<'_>) -> u64
    requires { (row_count_of pending.now.image.now < SETS) × (SETS < 65536) × (1 ≤ SLOTS) × (SLOTS < 65536) }
    ensures { result ≡ by_hitting_set (system_of pending.now.image.now) (rows_of pending.now.image.now) (held_in pending.now.blockers.now)
        pending.now.below.0 pending.now.x }
{
    let n = pending.image.head().states;
    let mut gathering = Gathering::<SETS, SLOTS>::new();
    gathering.gather(pending);
    let picked = picking::pick(n, &mut gathering.sets[..gathering.count]);
    masks::without(masks::full(n), picked)
}

// The set that x grows to, as what blocks it one level above `below`: the states that are not picked. Images of few rows get short tables.
#[tactic(auto, using(crate::proofs::Grows::all_rows))]
pub fn grow(pending: &Pending<'_>) -> u64
    ensures { result ≡ by_hitting_set (system_of pending.now.image.now) (rows_of pending.now.image.now) (held_in pending.now.blockers.now)
        pending.now.below.0 pending.now.x }
{
    if pending.image.head().rows < SHORT_ROWS {
        return grow_in::<SHORT_TABLE, SHORT_TABLE>(pending);
    }
    grow_in::<4097, 4096>(pending)
}
