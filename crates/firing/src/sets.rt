// The backward sets of the set so far, kept for every symbol: those that a state more brings in come from the rows that fire at it.
ghost use Rattle.std.specs.Prelude.{◌≡◌, ◌<◌, length, get_or, set as put};
ghost use Rattle.automata.specs.Image.{row_at};
ghost use Rattle.automata.specs.Automaton.{with_row};
ghost use Rattle.automata.specs.Walk.{RowsStand};
ghost use Rattle.masks.specs.Sets.{union, single};
ghost use Rattle.firing.specs.Sets.{SetsOf, Trying, TryingBy};

use crate::linking::{RowChains, chain_of, place_of};
use automata::image::Image;
use masks::State;

// The set of the symbol, with the state of the row at `at` if the row's case is a subset of y.
fn with_row(image: &Image<'_>, at: usize, y: u64, set: &mut u64)
    requires { RowsStand image.now 1 at }
    ensures { set.new ≡ with_row y set.old (row_at image.now at) }
{
    let row = image.row_at(at);
    *set = masks::insert_if(masks::adds_none(row.case, y), row.state, *set);
}

// The sets of y become those of y with state q, by the rows that the tables chain.
pub fn fire(
    image: &Image<'_>,
    q: State,
    y: u64,
    lasts: &[u16],
    links: &[u16],
    symbols: &[u8],
    sets: &mut [u64],
)
    requires { Trying image.now q.0 y lasts.now links.now symbols.now × SetsOf image.now y sets.old }
    ensures { SetsOf image.now (union y (single q.0)) sets.new }
{
    let more = masks::insert(q, y);
    let mut number = chains::told(lasts, chain_of(Some(q)));
    while let Some(row) = number {
        let symbol = usize::from(symbols[row]);
        with_row(image, place_of(image, row), more, &mut sets[symbol]);
        number = chains::told(links, row);
    }
}

impl<const N: usize> RowChains<N> {
    // The sets of y become those of y with state q.
    pub fn fire(&self, image: &Image<'_>, q: State, y: u64, sets: &mut [u64])
        requires { TryingBy image.now q.0 y self.now × SetsOf image.now y sets.old }
        ensures { SetsOf image.now (union y (single q.0)) sets.new }
    {
        fire(image, q, y, &self.lasts, &self.links, &self.symbols, sets);
    }
}
