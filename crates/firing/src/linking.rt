// Rows chained by the state at which they can fire: the highest state of the case that x lacks. While states are tried in order, a row's case can come to be
// inside the set only when that state does.
ghost use Rattle.std.specs.Prelude.{◌≡◌, suc, ◌+◌, ◌≤◌, ◌<◌};
ghost use Rattle.automata.specs.Image.{symbols_of, row_count_of, span_start};
ghost use Rattle.firing.specs.Linked.{place_of, rows_to, chain_of, Belongs, Linked, LinkedBy};
ghost use Rattle.firing.specs.Linked.{firing as firing_of};

use automata::image::{Image, Symbol};
use automata::rows::rows_of;
use masks::State;

// Rows of an image, by their numbers: the last in each chain, and beside each row the one before it and the symbol.
#[derive(Drop)]
pub struct RowChains<const N: usize> {
    pub(crate) lasts: [u16; 65],
    pub(crate) links: [u16; N],
    pub(crate) symbols: [u8; N],
}

// Where the row with this number stands.
pub(crate) fn place_of(image: &Image<'_>, row: usize) -> usize
    requires { row < 4096 }
    ensures { result ≡ place_of image.now row }
{
    20 + 8 * usize::from(image.head().symbols) + 9 * row
}

// How many rows stand before a place.
fn rows_to(image: &Image<'_>, at: usize) -> usize
    requires { place_of image.now 0 ≤ at }
    ensures { result ≡ rows_to image.now at }
{
    (at - place_of(image, 0)) / 9
}

// The highest state of the case that x lacks, if it lacks one.
#[tactic(auto, unfolding(crate::specs::Linked::chain_of, crate::specs::Linked::firing))]
fn firing(case: u64, x: u64) -> Option<State>
    ensures { chain_of result ≡ firing_of case x }
{
    let above = u64::leading_zeros(masks::without(case, x));
    let highest = 63u32.checked_sub(above)?;
    // below 64, where `try_from` would have an error to handle
    Some(State(highest as u8))
}

// The chain of the rows that fire at the state, or of those that never do.
#[tactic(auto, unfolding(crate::specs::Linked::chain_of))]
pub(crate) fn chain_of(fires: Option<State>) -> usize
    ensures { result ≡ chain_of fires }
{
    match fires {
        None => 0,
        Some(q) => usize::from(q.0) + 1,
    }
}

// One row more is chained: the one with this number, of the symbol.
fn link_row(
    image: &Image<'_>,
    x: u64,
    symbol: Symbol,
    row: usize,
    lasts: &mut [u16],
    links: &mut [u16],
    symbols: &mut [u8],
)
    requires { Linked image.now x row lasts.old links.old symbols.old × Belongs image.now symbol.0 row }
    ensures { Linked image.now x (row + 1) lasts.new links.new symbols.new }
{
    let case = image.row_at(place_of(image, row)).case;
    let chain = chain_of(firing(case, x));
    chains::link(lasts, links, chain, row);
    symbols[row] = symbol.0;
}

// The rows of the symbol.
fn link_symbol(
    image: &Image<'_>,
    x: u64,
    symbol: Symbol,
    lasts: &mut [u16],
    links: &mut [u16],
    symbols: &mut [u8],
)
    requires { Linked image.now x (rows_to image.now (span_start image.now symbol.0)) lasts.old links.old symbols.old × (symbol.0 < symbols_of image.now) }
    ensures { Linked image.now x (rows_to image.now (span_start image.now (suc symbol.0))) lasts.new links.new symbols.new }
{
    let rows = rows_of(image, symbol);
    for row in rows_to(image, rows.start)..rows_to(image, rows.end) {
        link_row(image, x, symbol, row, lasts, links, symbols);
    }
}

// All rows of the image, in tables that chain none before, as tables of zeros.
pub fn link_rows(
    image: &Image<'_>,
    x: u64,
    lasts: &mut [u16],
    links: &mut [u16],
    symbols: &mut [u8],
)
    requires { Linked image.now x 0 lasts.old links.old symbols.old }
    ensures { Linked image.now x (row_count_of image.now) lasts.new links.new symbols.new }
{
    for symbol in 0..image.head().symbols {
        link_symbol(image, x, Symbol(symbol), lasts, links, symbols);
    }
}

impl<const N: usize> RowChains<N> {
    // All rows of the image.
    pub fn of(image: &Image<'_>, x: u64) -> RowChains<N>
        requires { row_count_of image.now ≤ N }
        ensures { LinkedBy image.now x (row_count_of image.now) result }
    {
        let mut chains = RowChains {
            lasts: [0; 65],
            links: [0; N],
            symbols: [0; N],
        };
        // that the image is valid, as `link_rows` asks, is known once its head is read
        let _head = image.head();
        link_rows(
            image,
            x,
            &mut chains.lasts,
            &mut chains.links,
            &mut chains.symbols,
        );
        chains
    }
}
