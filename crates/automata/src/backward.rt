// The backward set of a case by a symbol, from the rows where they stand in the image. The walk over the rows ends once every state is in.
ghost use Rattle.std.specs.Prelude.{◌≡◌, ◌≤◌, ◌<◌};
ghost use Rattle.masks.specs.Sets.{full};
ghost use Rattle.automata.specs.Image.{states_of, symbols_of, rows_from, rows_of};
ghost use Rattle.automata.specs.Automaton.{with_rows};
ghost use Rattle.automata.specs.Walk.{Walks, RowsStand, Walking, ThreeRows, Ended};

use crate::image::{Image, Symbol};
use crate::rows::{Rows, row_at, rows_of};

// A backward set, and how many of the symbol's rows were walked for it.
#[derive(Clone, Copy)]
pub struct Walked {
    pub set: u64,
    pub rows: usize,
}

// The set, with the state of the row at `at` if the row's case is a subset of x.
fn with_row(bytes: &[u8], at: usize, x: u64, set: u64) -> u64
    requires { RowsStand bytes.now 1 at }
    ensures { result ≡ with_rows x set (rows_from bytes.now 1 at) }
{
    let row = row_at(bytes, at);
    masks::insert_if(masks::adds_none(row.case, x), row.state, set)
}

// The sets after one, two and three rows.
#[derive(Clone, Copy)]
struct Sets {
    one: u64,
    two: u64,
    three: u64,
}

// What three rows make of a set, one after the other.
fn with_three(bytes: &[u8], at: usize, x: u64, set: u64) -> Sets
    requires { RowsStand bytes.now 3 at }
    ensures { ThreeRows bytes.now x set at result }
{
    let one = with_row(bytes, at, x, set);
    let two = with_row(bytes, at + 9, x, one);
    let three = with_row(bytes, at + 18, x, two);
    Sets { one, two, three }
}

// A place of the walk over the rows, and the states that the rows before it gave.
#[derive(Clone, Copy)]
struct Reached {
    at: usize,
    set: u64,
}

// Where the walk ends: behind the row that brings the last state in, or the last row. It goes row by row, and counts its place by hand: a `for` by steps of nine
// tests the place twice for each row.
fn by_ones(bytes: &[u8], rows: Rows, x: u64, all: u64, reached: Reached) -> Reached
    requires { Walking bytes.now rows.start rows.end x reached.at reached.set × (all ≡ full (states_of bytes.now)) }
    ensures { Ended bytes.now rows.start rows.end x result.at result.set }
{
    let mut at = reached.at;
    let mut set = reached.set;
    while at < rows.end {
        set = with_row(bytes, at, x, set);
        at += 9;
        if set == all {
            return Reached { at, set };
        }
    }
    Reached { at, set }
}

// The same from the first row on, by three rows at a time while there are so many. A set that lacks a state after three rows lacked it before; where they bring
// the last state in, the sets on the way tell which row did, so that no row is read again. The place is counted by hand, since the rest goes on from there.
fn by_threes(bytes: &[u8], rows: Rows, x: u64, all: u64) -> Reached
    requires { Walking bytes.now rows.start rows.end x rows.start 0 × (all ≡ full (states_of bytes.now)) × (27 ≤ rows.end) }
    ensures { Ended bytes.now rows.start rows.end x result.at result.set }
{
    let last = rows.end - 27;
    let mut at = rows.start;
    let mut set: u64 = 0;
    while at <= last {
        let sets = with_three(bytes, at, x, set);
        set = sets.three;
        if sets.three == all {
            if sets.one == all {
                return Reached { at: at + 9, set };
            }
            if sets.two == all {
                return Reached { at: at + 18, set };
            }
            return Reached { at: at + 27, set };
        }
        at += 27;
    }
    by_ones(bytes, rows, x, all, Reached { at, set })
}

// The states that have a row by the symbol whose case is a subset of x, and the least number of the symbol's first rows that brings all n states in, or
// the number of all rows.
pub fn backward(image: &Image<'_>, symbol: Symbol, x: u64) -> Walked
    requires { symbol.0 < symbols_of image.now }
    ensures { Walks (states_of image.now) (rows_of image.now symbol.0) x result.set result.rows }
{
    let rows = rows_of(image, symbol);
    let reached = by_threes(image.bytes(), rows, x, masks::full(image.head().states));
    Walked {
        set: reached.set,
        rows: (reached.at - rows.start) / 9,
    }
}
