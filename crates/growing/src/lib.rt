// Growth by states: the set that a case grows to when its states are tried in order. Where rows or blockers are many it works in tables of its own. Assumes
// nothing.
#![tactic(auto)]

mod trying; // trying.rt: the growth by states over tables

ghost use Rattle.std.specs.Prelude.{◌≡◌};
ghost use Rattle.machine.specs.Machine.{by_states};
ghost use Rattle.machine.specs.Runs.{system_of};
ghost use Rattle.blockers.specs.Tables.{held_in};

use crate::trying::by_tables;
use automata::image::Head;
use blockers::sizes::{FEW_STATES, MANY_BLOCKERS, MANY_ROWS, SOME_BLOCKERS};
use passing::{Pending, by_each};

// Whether there are so few blockers and rows that tables do not pay: they are filled for each symbol, and used for each state.
fn is_small(head: Head, blockers: usize) -> bool {
    let symbols = usize::from(head.symbols);
    if head.states < FEW_STATES {
        return blockers / MANY_BLOCKERS < symbols;
    }
    blockers / SOME_BLOCKERS < symbols && usize::from(head.rows) / MANY_ROWS < symbols
}

// The set that x grows to by its states, as what blocks it one level above `below`. No set with a bit at n or above passes.
pub fn by_states(pending: &Pending<'_>) -> u64
    ensures { result ≡ by_states (system_of pending.now.image.now) (held_in pending.now.blockers.now) pending.now.below.0 pending.now.x }
{
    let head = pending.image.head();
    if !masks::within(head.states, pending.x) {
        return pending.x;
    }
    if is_small(head, pending.blockers.count()) {
        return by_each(pending);
    }
    by_tables(pending)
}
