// The cases that a word's run reaches, in a table: first each place holds the set inside which its case must lie, and then the case itself.
ghost use Rattle.std.specs.Prelude.{◌≡◌, ◌++◌, ◌≤◌, length, drop};
ghost use Rattle.automata.specs.Automaton.{automaton_of, taken_back};
ghost use Rattle.automata.specs.WordTest.{accepts, WordOf};
ghost use Rattle.printing.specs.Steps.{sets_behind, events_by, cases_of, case_after, Filled, Ready};

use automata::backward::backward;
use automata::image::{Image, Symbol};
use automata::picks::reached;
use automata::word::taken_back;

// The set z taken back by the whole word; the table has it taken back by what remains behind each symbol.
pub(crate) fn fill(image: &Image<'_>, word: &[u8], z: u64, table: &mut [u64]) -> u64
    requires { WordOf image.now word.now × (length word.now ≤ length table.old) }
    ensures back { result ≡ taken_back (automaton_of image.now) word.now z }
    ensures sets { table.new ≡ sets_behind (automaton_of image.now) z word.now
        ++ drop (length word.now) table.old }
{
    let mut case = z;
    for i in (0..word.len()).rev() {
        table[i] = case;
        case = backward(image, Symbol(word[i]), case).set;
    }
    case
}

// The case that x reaches by the whole word, inside the sets of the table; the table then has the case that it reaches by each symbol.
pub(crate) fn step_through(image: &Image<'_>, word: &[u8], x: u64, table: &mut [u64]) -> u64
    requires { WordOf image.now word.now × (length word.now ≤ length table.old) }
    ensures last { result ≡ case_after x (events_by (automaton_of image.now) x word.now table.old) }
    ensures cases { table.new ≡ cases_of (events_by (automaton_of image.now) x word.now table.old)
        ++ drop (length word.now) table.old }
{
    let mut case = x;
    for (i, &symbol) in word.iter().enumerate() {
        let next = reached(image, Symbol(symbol), table[i], case);
        table[i] = next;
        case = next;
    }
    case
}

// Whether the word is accepted. A table that is long enough then has the final set taken back by what remains behind each symbol.
pub(crate) fn accept(image: &Image<'_>, word: &[u8], table: &mut [u64]) -> bool
    requires { WordOf image.now word.now }
    ensures accepted { result ≡ accepts (automaton_of image.now) word.now }
    ensures sets { Filled image.now word.now table.new }
{
    let head = image.head();
    if table.len() < word.len() {
        return masks::subset(head.initial, taken_back(image, word, head.finals));
    }
    masks::subset(head.initial, fill(image, word, head.finals, table))
}

// A table that has these sets then has the cases of the word's run.
pub(crate) fn run_through(image: &Image<'_>, word: &[u8], table: &mut [u64])
    requires { WordOf image.now word.now × Filled image.now word.now table.old }
    ensures { Ready image.now word.now table.new }
{
    if word.len() <= table.len() {
        step_through(image, word, image.head().initial, table);
    }
}
