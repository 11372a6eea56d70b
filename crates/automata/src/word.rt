// The word test: whether an automaton accepts a word.
ghost use Rattle.std.specs.Prelude.{◌≡◌};
ghost use Rattle.automata.specs.Automaton.{automaton_of, taken_back};
ghost use Rattle.automata.specs.WordTest.{known, WordOf, word_test};
ghost use Rattle.automata.specs.Answers.{word_number};

use crate::backward::backward;
use crate::image::{Image, Symbol, read_image};
use crate::refusal::Refusal;

// Whether each symbol of the word is below `symbols`.
pub fn symbols_below(word: &[u8], symbols: u8) -> bool
    ensures { result ≡ known symbols word.now }
{
    word.iter().all(|s| *s < symbols)
}

// The case x taken back by the word's symbols, from last to first.
pub fn taken_back(image: &Image<'_>, word: &[u8], x: u64) -> u64
    requires { WordOf image.now word.now }
    ensures { result ≡ taken_back (automaton_of image.now) word.now x }
{
    let mut case = x;
    for s in word.iter().rev() {
        case = backward(image, Symbol(*s), case).set;
    }
    case
}

// Whether the word is accepted; or the image's refusal, or that a symbol is k or above.
pub fn word_test(image: &[u8], word: &[u8]) -> Result<bool, Refusal>
    ensures { word_number result ≡ word_test image.now word.now }
{
    let image = read_image(image)?;
    let head = image.head();
    if !symbols_below(word, head.symbols) {
        return Err(Refusal::UnknownSymbol);
    }
    Ok(masks::subset(head.initial, taken_back(&image, word, head.finals)))
}
