// The growth by states over tables: the backward sets of the set so far, the lists of what covers them, and the rows by the states at which they fire.
ghost use Rattle.std.specs.Prelude.{◌≡◌, true, ◌+◌, ◌≤◌, ◌<◌, T, length, option_copied};
ghost use Rattle.masks.specs.Sets.{union, single, within};
ghost use Rattle.automata.specs.Image.{states_of, row_count_of};
ghost use Rattle.machine.specs.Machine.{passes, with_state, by_states};
ghost use Rattle.machine.specs.Runs.{system_of};
ghost use Rattle.blockers.specs.Tables.{held_in};
ghost use Rattle.passing.specs.Grown.{all_settled};
ghost use Rattle.firing.specs.Linked.{LinkedBy};
ghost use Rattle.firing.specs.Sets.{SetsOf, TryingBy};
ghost use Rattle.growing.specs.Near.{list_of, first_place};
ghost use Rattle.growing.specs.Kept.{Growing, Copied, Same, Settling};

use automata::backward::backward;
use automata::image::Symbol;
use blockers::Level;
use blockers::sizes::{LISTED_COVERS, SHORT_ROWS, SHORT_TABLE};
use covering::{is_settled, list_on, listed, settled_anew};
use firing::linking::RowChains;
use masks::State;
use passing::{Pending, by_each};

// The set so far with its backward sets by symbol, and room for those of the set that is tried next.
#[derive(Drop)]
struct Grown {
    set: u64,
    sets: [u64; 64],
    next: [u64; 64],
}

// The masks of what covers the backward sets of x, in lists that stand one behind the other: where that of symbol 0 begins, and where that of each symbol ends.
#[derive(Drop)]
struct Lists {
    near: [u64; LISTED_COVERS],
    ends: [Option<usize>; 65],
}

// The first `count` sets of one table become those of the other, and one more where the count is odd. Two parts of fields that are lent together get no proof yet, so
// the tables are parameters here. Two at a time, since one by one, as a slice's own copy, becomes a call of C's memmove, which the archive would need from outside.
fn copy(from: &[u64; 64], to: &mut [u64; 64], count: usize)
    requires { count ≤ 64 }
    ensures { Copied count from.now to.new }
{
    for i in 0..(count + 1) / 2 {
        to[2 * i] = from[2 * i];
        to[2 * i + 1] = from[2 * i + 1];
    }
}

// Where the first list begins. At level 0 no blocker covers a case, and there are no lists.
fn first_place(below: Level) -> Option<usize>
    ensures { result ≡ first_place below.0 }
{
    if below == Level(0) {
        return None;
    }
    Some(0)
}

impl Lists {
    // The list at a symbol's place.
    fn of(&self, place: usize) -> Option<&[u64]>
        requires { place + 1 < length self.now.ends }
        ensures { option_copied result ≡ list_of self.now.near self.now.ends place }
    {
        listed(&self.near, self.ends[place], self.ends[place + 1])
    }
}

// The backward sets of x and the lists of what covers them; or that some set is not settled.
fn begin(pending: &Pending<'_>, grown: &mut Grown, lists: &mut Lists) -> bool
    requires { (grown.old.set ≡ pending.now.x) × T (within (states_of pending.now.image.now) pending.now.x) }
    ensures { result ≡ true → Growing pending.now 0 grown.new lists.new }
{
    let head = pending.image.head();
    lists.ends[0] = first_place(pending.below);
    for s in 0..head.symbols {
        let symbol = Symbol(s);
        let place = usize::from(symbol.0);
        let p = backward(pending.image, symbol, pending.x).set;
        lists.ends[place + 1] = list_on(
            pending.blockers,
            pending.below,
            p,
            &mut lists.near,
            lists.ends[place],
        );
        if !is_settled(
            head.initial,
            pending.blockers,
            pending.below,
            pending.x,
            p,
            lists.of(place),
        ) {
            return false;
        }
        grown.sets[place] = p;
    }
    true
}

// Whether each backward set of `more` is inside it or blocked below. Those that the set so far has too are settled.
fn all_settled(pending: &Pending<'_>, lists: &Lists, grown: &Grown, more: u64) -> bool
    requires { Settling pending.now grown.now more lists.now }
    ensures { result ≡ all_settled pending.now.image.now (held_in pending.now.blockers.now) pending.now.below.0 more }
{
    let head = pending.image.head();
    for s in 0..head.symbols {
        let symbol = Symbol(s);
        let place = usize::from(symbol.0);
        let p = grown.next[place];
        let was = grown.sets[place];
        if !settled_anew(
            head.initial,
            pending.blockers,
            pending.below,
            more,
            p,
            was,
            lists.of(place),
        ) {
            return false;
        }
    }
    true
}

// Whether the set with state q passes; its backward sets are then in `next`.
fn keeps<const N: usize>(
    pending: &Pending<'_>,
    rows: &RowChains<N>,
    lists: &Lists,
    q: State,
    grown: &mut Grown,
) -> bool
    requires { TryingBy pending.now.image.now q.0 grown.old.set rows.now × Growing pending.now q.0 grown.old lists.now }
    ensures passes { result
        ≡ passes (system_of pending.now.image.now) (held_in pending.now.blockers.now) pending.now.below.0 pending.now.x (union grown.old.set (single q.0)) }
    ensures sets { result ≡ true → SetsOf pending.now.image.now (union grown.old.set (single q.0)) grown.new.next }
    ensures same { Same grown.old grown.new }
{
    let head = pending.image.head();
    let more = masks::insert(q, grown.set);
    if masks::subset(head.initial, more) {
        return false;
    }
    let symbols = usize::from(head.symbols);
    copy(&grown.sets, &mut grown.next, symbols);
    rows.fire(pending.image, q, grown.set, &mut grown.next);
    all_settled(pending, lists, grown, more)
}

// The set takes state q in, if that is not in x and the set with it still passes.
fn try_state<const N: usize>(
    pending: &Pending<'_>,
    rows: &RowChains<N>,
    lists: &Lists,
    q: State,
    grown: &mut Grown,
)
    requires { LinkedBy pending.now.image.now pending.now.x (row_count_of pending.now.image.now) rows.now × Growing pending.now q.0 grown.old lists.now
        × (q.0 < states_of pending.now.image.now) }
    ensures grows { Growing pending.now (q.0 + 1) grown.new lists.now }
    ensures set { grown.new.set
        ≡ with_state (system_of pending.now.image.now) (held_in pending.now.blockers.now) pending.now.below.0 pending.now.x q.0 grown.old.set }
{
    if masks::member(q, pending.x) {
        return;
    }
    if keeps(pending, rows, lists, q, grown) {
        let symbols = usize::from(pending.image.head().symbols);
        copy(&grown.next, &mut grown.sets, symbols);
        grown.set = masks::insert(q, grown.set);
    }
}

// The set that x grows to by its states, from the sets and lists of x, with chains for N rows.
fn by_chains<const N: usize>(pending: &Pending<'_>, lists: &Lists, grown: &mut Grown) -> u64
    requires { (row_count_of pending.now.image.now ≤ N) × (N ≤ 4096) × Growing pending.now 0 grown.old lists.now }
    ensures { result ≡ by_states (system_of pending.now.image.now) (held_in pending.now.blockers.now) pending.now.below.0 pending.now.x }
{
    let rows = RowChains::<N>::of(pending.image, pending.x);
    for q in 0..pending.image.head().states {
        try_state(pending, &rows, lists, State(q), grown);
    }
    grown.set
}

// The set that x grows to by its states. Where a set of x is not settled, each state is tried with all backward sets. Not inlined, so that the tables take stack
// only where they are used.
#[inline(never)]
pub(crate) fn by_tables(pending: &Pending<'_>) -> u64
    requires { T (within (states_of pending.now.image.now) pending.now.x) }
    ensures { result ≡ by_states (system_of pending.now.image.now) (held_in pending.now.blockers.now) pending.now.below.0 pending.now.x }
{
    let mut grown = Grown {
        set: pending.x,
        sets: [0; 64],
        next: [0; 64],
    };
    let mut lists = Lists {
        near: [0; LISTED_COVERS],
        ends: [None; 65],
    };
    if !begin(pending, &mut grown, &mut lists) {
        return by_each(pending);
    }
    if pending.image.head().rows < SHORT_ROWS {
        return by_chains::<SHORT_TABLE>(pending, &lists, &mut grown);
    }
    by_chains::<4096>(pending, &lists, &mut grown)
}
