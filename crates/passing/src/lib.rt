// Whether a set passes, and the growth by states that tries each with all backward sets. Assumes nothing.
#![tactic(auto)]

ghost use Rattle.std.specs.Prelude.{◌≡◌, ◌<◌, T};
ghost use Rattle.masks.specs.Sets.{within};
ghost use Rattle.automata.specs.Image.{states_of};
ghost use Rattle.machine.specs.Machine.{settled as is_settled, passes as passes_test, with_state, by_states};
ghost use Rattle.machine.specs.Runs.{system_of};
ghost use Rattle.blockers.specs.Tables.{held_in};
ghost use Rattle.passing.specs.Grown.{all_settled, Grown};

use automata::backward::backward;
use automata::image::{Image, Symbol};
use blockers::Level;
use blockers::reasons::Blockers;
use masks::State;

// A pending case x, and what it takes to extend it or to block it one level above `below`.
#[derive(Clone, Copy)]
pub struct Pending<'a> {
    pub image: &'a Image<'a>,
    pub blockers: &'a Blockers<'a>,
    pub below: Level,
    pub x: u64,
}

// Whether p, a backward set of y, is inside y or blocked one level below.
fn settled(initial: u64, blockers: &Blockers<'_>, below: Level, y: u64, p: u64) -> bool
    ensures { result ≡ is_settled initial (held_in blockers.now) below.0 y p }
{
    masks::subset(p, y) || blockers.block(initial, below, p)
}

// Whether each backward set of y is inside y or blocked one level below.
fn all_settled(pending: &Pending<'_>, y: u64) -> bool
    ensures { result ≡ all_settled pending.now.image.now (held_in pending.now.blockers.now) pending.now.below.0 y }
{
    let head = pending.image.head();
    for s in 0..head.symbols {
        let p = backward(pending.image, Symbol(s), y).set;
        if !settled(head.initial, pending.blockers, pending.below, y, p) {
            return false;
        }
    }
    true
}

// Whether y passes: it may take the place of x as what blocks x one level above `below`.
pub fn passes(pending: &Pending<'_>, y: u64) -> bool
    ensures { result ≡ passes_test (system_of pending.now.image.now) (held_in pending.now.blockers.now) pending.now.below.0 pending.now.x y }
{
    let head = pending.image.head();
    masks::subset(pending.x, y)
        && !masks::subset(head.initial, y)
        && masks::within(head.states, y)
        && all_settled(pending, y)
}

// The set y, which has grown from x, with the state q if that is not in x and the set with it still passes. That the set contains x and has no bit at n or above
// is known, and not asked again.
fn with_state(pending: &Pending<'_>, q: State, y: u64) -> u64
    requires { (q.0 < states_of pending.now.image.now) × Grown pending.now.image.now pending.now.x y }
    ensures { result ≡ with_state (system_of pending.now.image.now) (held_in pending.now.blockers.now) pending.now.below.0 pending.now.x q.0 y }
{
    let head = pending.image.head();
    if masks::member(q, pending.x) {
        return y;
    }
    let more = masks::insert(q, y);
    if masks::subset(head.initial, more) {
        return y;
    }
    if all_settled(pending, more) {
        return more;
    }
    y
}

// The set that x grows to by its states, as what blocks it one level above `below`: each is tried with all backward sets.
pub fn by_each(pending: &Pending<'_>) -> u64
    requires { T (within (states_of pending.now.image.now) pending.now.x) }
    ensures { result ≡ by_states (system_of pending.now.image.now) (held_in pending.now.blockers.now) pending.now.below.0 pending.now.x }
{
    let head = pending.image.head();
    let mut y = pending.x;
    for q in 0..head.states {
        y = with_state(pending, State(q), y);
    }
    y
}
