// The sets that are to be met: what is left of I, and of the case of each row whose state is outside b, once the states of x are taken away. Each stands once,
// and none is empty. The table has room for all of them.
ghost use Rattle.std.specs.Prelude.{◌≡◌, [], ◌∷◌, ◌≤◌, ◌<◌, eqb, length};
ghost use Rattle.lists.specs.Lists.{any};
ghost use Rattle.automata.specs.Image.{states_of, initial_of, symbols_of, row_at, rows_of};
ghost use Rattle.automata.specs.Walk.{RowsStand, Span, rows_between};
ghost use Rattle.machine.specs.Runs.{system_of};
ghost use Rattle.machine.specs.Hitting.{cover as cover_set, with_set, to_meet};
ghost use Rattle.blockers.specs.Tables.{held_in};
ghost use Rattle.hitting.specs.Sets.{Filled, HasRoom, held, with_row_cases, with_symbol};

use crate::slots::{last_of, link};
use automata::backward::backward;
use automata::image::{Image, Symbol};
use automata::rows::{Rows, rows_of};
use blockers::reasons::Reason;
use passing::Pending;

// The sets so far, in the first `count` places of a table, and the chains in which they stand by their slots.
#[derive(Drop)]
pub(crate) struct Gathering<const SETS: usize, const SLOTS: usize> {
    pub(crate) sets: [u64; SETS],
    slots: [u16; SLOTS],
    links: [u16; SETS],
    pub(crate) count: usize,
}

impl<const SETS: usize, const SLOTS: usize> Gathering<SETS, SLOTS> {
    // No sets yet.
    pub(crate) fn new() -> Self
        requires { (SETS < 65536) × (1 ≤ SLOTS) }
        ensures { Filled [] result }
    {
        Gathering {
            sets: [0; SETS],
            slots: [0; SLOTS],
            links: [0; SETS],
            count: 0,
        }
    }

    // Whether the set is one of them: it is looked for along the chain of its slot.
    fn has(&self, set: u64) -> bool
        requires { Filled (held self.now) self.now }
        ensures { result ≡ any (eqb set) (held self.now) }
    {
        let held = &self.sets[..self.count];
        let mut next = last_of(&self.slots, set);
        while let Some(place) = next {
            if held[place] == set {
                return true;
            }
            next = chains::told(&self.links, place);
        }
        false
    }

    // The set enters unless it is empty or one of them.
    fn add(&mut self, set: u64)
        requires { HasRoom self.old (with_set (held self.old) set) }
        ensures { Filled (with_set (held self.old) set) self.new }
    {
        if set == 0 || self.has(set) {
            return;
        }
        self.sets[self.count] = set;
        link(&mut self.slots, &mut self.links, set, self.count);
        self.count += 1;
    }

    // What is left of the case of the row at `at` enters, if the row's state is outside b.
    fn add_row(&mut self, image: &Image<'_>, at: usize, b: u64, x: u64)
        requires { RowsStand image.now 1 at × HasRoom self.old (with_row_cases x b (held self.old) (row_at image.now at ∷ [])) }
        ensures { Filled (with_row_cases x b (held self.old) (row_at image.now at ∷ [])) self.new }
    {
        let row = image.row_at(at);
        if !masks::member(row.state, b) {
            self.add(masks::without(row.case, x));
        }
    }

    // The same for all these rows.
    fn add_rows(&mut self, image: &Image<'_>, rows: Rows, b: u64, x: u64)
        requires { Span image.now rows.start rows.end
            × HasRoom self.old (with_row_cases x b (held self.old) (rows_between image.now rows.start rows.end)) }
        ensures { Filled (with_row_cases x b (held self.old) (rows_between image.now rows.start rows.end)) self.new }
    {
        for at in (rows.start..rows.end).step_by(9) {
            self.add_row(image, at, b, x);
        }
    }

    // What is left of the cases of the symbol's rows whose state is outside its b.
    fn add_symbol(&mut self, pending: &Pending<'_>, symbol: Symbol)
        requires { (symbol.0 < symbols_of pending.now.image.now)
            × HasRoom self.old (with_symbol (system_of pending.now.image.now) (rows_of pending.now.image.now) (held_in pending.now.blockers.now)
            pending.now.below.0 pending.now.x (held self.old) symbol.0) }
        ensures { Filled (with_symbol (system_of pending.now.image.now) (rows_of pending.now.image.now) (held_in pending.now.blockers.now)
            pending.now.below.0 pending.now.x (held self.old) symbol.0) self.new }
    {
        let p = backward(pending.image, symbol, pending.x).set;
        let b = cover(pending, p);
        self.add_rows(pending.image, rows_of(pending.image, symbol), b, pending.x);
    }

    // The sets that are to be met where x grows one level above `below`, where there are none yet.
    pub(crate) fn gather(&mut self, pending: &Pending<'_>)
        requires { Filled [] self.old
            × (length (to_meet (system_of pending.now.image.now) (rows_of pending.now.image.now) (held_in pending.now.blockers.now)
            pending.now.below.0 pending.now.x) ≤ SETS) }
        ensures { Filled (to_meet (system_of pending.now.image.now) (rows_of pending.now.image.now) (held_in pending.now.blockers.now)
            pending.now.below.0 pending.now.x) self.new }
    {
        let head = pending.image.head();
        self.add(masks::without(head.initial, pending.x));
        for s in 0..head.symbols {
            self.add_symbol(pending, Symbol(s));
        }
    }
}

// The set b of a symbol whose backward set of x is p.
fn cover(pending: &Pending<'_>, p: u64) -> u64
    ensures { result ≡ cover_set (states_of pending.now.image.now) (initial_of pending.now.image.now) (held_in pending.now.blockers.now)
        pending.now.below.0 pending.now.x p }
{
    let head = pending.image.head();
    if masks::subset(p, pending.x) {
        return pending.x;
    }
    match pending.blockers.why(head.initial, pending.below, p) {
        Some(Reason::ByBlocker(place, _)) => pending.blockers.masks[place],
        Some(Reason::ByStart(q)) => masks::without(masks::full(head.states), masks::insert(q, 0)),
        None => pending.x,
    }
}
