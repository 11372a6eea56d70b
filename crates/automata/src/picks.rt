// The case that a step reaches where each state picks its first row whose case lies inside a set. One walk over the symbol's rows picks for all states.
ghost use Rattle.std.specs.Prelude.{◌≡◌, ◌<◌};
ghost use Rattle.automata.specs.Image.{states_of, symbols_of, row_at, rows_of};
ghost use Rattle.automata.specs.Walk.{RowsStand, Span, rows_between, pick_row};
ghost use Rattle.automata.specs.Picks.{reached as reached_case};

use crate::image::{Image, Symbol};
use crate::rows::{Rows, row_at, rows_of};

// The states that have picked a row, and the union of the picked cases.
#[derive(Clone, Copy)]
struct Picked {
    states: u64,
    case: u64,
}

// What was picked before a row, and that row if its state, one of x, has not picked and its case lies inside the set.
fn pick_row(bytes: &[u8], set: u64, x: u64, picked: Picked) -> Picked
    requires { RowsStand bytes.now 1 0 }
    ensures { result ≡ pick_row set x picked (row_at bytes.now 0) }
{
    let row = row_at(bytes, 0);
    if !masks::absent(row.state, x, picked.states) {
        return picked;
    }
    if !masks::subset(row.case, set) {
        return picked;
    }
    Picked {
        states: masks::insert(row.state, picked.states),
        case: picked.case | row.case,
    }
}

// What the states of x pick among the rows from the first place to the end. The walk ends once each has picked.
fn pick_rows(bytes: &[u8], rows: Rows, set: u64, x: u64) -> u64
    requires { Span bytes.now rows.start rows.end }
    ensures { result ≡ reached_case (states_of bytes.now) (rows_between bytes.now rows.start rows.end) set x }
{
    let mut picked = Picked { states: 0, case: 0 };
    for row in bytes[rows.start..rows.end].chunks_exact(9) {
        if picked.states == x {
            return picked.case;
        }
        picked = pick_row(row, set, x, picked);
    }
    picked.case
}

// The case that x reaches by the symbol, where each state picks its first row whose case lies inside the set.
pub fn reached(image: &Image<'_>, symbol: Symbol, set: u64, x: u64) -> u64
    requires { symbol.0 < symbols_of image.now }
    ensures { result ≡ reached_case (states_of image.now) (rows_of image.now symbol.0) set x }
{
    pick_rows(image.bytes(), rows_of(image, symbol), set, x)
}
