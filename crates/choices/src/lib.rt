// The machine's choices: the symbol that extends a pending case, and the set that blocks it.
#![tactic(auto)]

ghost use Rattle.std.specs.Prelude.{◌≡◌, length};
ghost use Rattle.lists.specs.Lists.{first_from};
ghost use Rattle.automata.specs.Image.{symbols_of, rows_of};
ghost use Rattle.machine.specs.Machine.{qualifies, chosen_from, hint_at};
ghost use Rattle.machine.specs.Runs.{system_of};
ghost use Rattle.machine.specs.Hitting.{growth_of};
ghost use Rattle.blockers.specs.Tables.{held_in};
ghost use Rattle.choices.specs.Found.{found_of, choice_of};

use automata::backward::backward;
use automata::image::Symbol;
use blockers::Level;
use blockers::reasons::lowest_initial;
use passing::Pending;

// The set that is to enter, and whether it is a hint. There is a set in either case, so it is no Option.
#[derive(Clone, Copy)]
pub struct Choice {
    pub mask: u64,
    pub hinted: bool,
}

// The first symbol, from 0 upward, that can extend the pending case x, with its backward set.
pub fn first_symbol(pending: &Pending<'_>) -> Option<(Symbol, u64)>
    requires { length pending.now.blockers.now.masks.now ≡ length pending.now.blockers.now.levels.now }
    ensures { result ≡ found_of (system_of pending.now.image.now) pending.now.x
        (first_from (qualifies (system_of pending.now.image.now) (held_in pending.now.blockers.now) pending.now.below.0 pending.now.x)
        (symbols_of pending.now.image.now) 0) }
{
    let head = pending.image.head();
    'symbols: for s in 0..head.symbols {
        let symbol = Symbol(s);
        let p = backward(pending.image, symbol, pending.x).set;
        if masks::subset(p, pending.x) {
            continue 'symbols;
        }
        if pending.below == Level(0) {
            if lowest_initial(head.initial, p).is_some() {
                continue 'symbols;
            }
            return Some((symbol, p));
        }
        for i in pending.blockers.skip_first(pending.below, p)..pending.blockers.masks.len() {
            if pending.blockers.reason_at(i, pending.below, p).is_some() {
                continue 'symbols;
            }
        }
        return Some((symbol, p));
    }
    None
}

// The set that x grows to by the way: 0 by its states, else through a hitting set. The way stays a number, since `choose_set` answers for every one.
fn grow(pending: &Pending<'_>, way: u64) -> u64
    ensures { result ≡ growth_of way (system_of pending.now.image.now) (rows_of pending.now.image.now) (held_in pending.now.blockers.now)
        pending.now.below.0 pending.now.x }
{
    if way == 0 {
        return growing::by_states(pending);
    }
    hitting::grow(pending)
}

// The set that blocks x after this many blocks: the hint of that number where it exists and passes, else what x grows to by the way.
pub fn choose_set(pending: &Pending<'_>, hints: &[u64], blocks: u64, way: u64) -> Choice
    ensures { choice_of result ≡ chosen_from (system_of pending.now.image.now) (growth_of way (system_of pending.now.image.now) (rows_of pending.now.image.now))
        (held_in pending.now.blockers.now) pending.now.below.0 pending.now.x (hint_at hints.now blocks) }
{
    // as Rust, std has no `From` between u64 and usize
    match hints.get(blocks as usize) {
        Some(&hint) if passing::passes(pending, hint) => Choice {
            mask: hint,
            hinted: true,
        },
        _ => Choice {
            mask: grow(pending, way),
            hinted: false,
        },
    }
}
