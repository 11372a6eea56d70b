// The word room: two lent tables, pending cases and the symbols that led to them, of which the first `count` places are in use, the highest level first.
// A place that becomes free holds 0, and what lies behind the places in use stays as it is. Assumes nothing.
#![tactic(auto)]

ghost use Rattle.std.specs.Prelude.{◌≡◌, ◌+◌, ◌-◌, ◌≤◌, [], ◌∷◌};
ghost use Rattle.machine.specs.Machine.{word_of};
ghost use Rattle.machine.specs.Lent.{pending_first, with_pending, with_word};
ghost use Rattle.wordroom.specs.Room.{Holds};
ghost use Rattle.wordroom.specs.Tables.{word_in, SameWord};

use automata::image::Symbol;

// Pending cases, and the symbols that led to them.
#[derive(Drop)]
pub struct WordRoom<'a> {
    pub cases: &'a mut [u64],
    pub symbols: &'a mut [u8],
}

impl<'a> WordRoom<'a> {
    // One more pending case, below the others, with the symbol that led to it.
    pub fn push(&mut self, count: usize, case: u64, symbol: Symbol)
        requires { Holds (count + 1) (word_in self.old) }
        ensures room { word_in self.new ≡ with_pending count (record { case = case; symbol = symbol.0 } ∷ pending_first (word_in self.old) count) (word_in self.old) }
        ensures same { SameWord self.old self.new }
    {
        self.cases[count] = case;
        self.symbols[count] = symbol.0;
    }

    // The pending case of the lowest level leaves. Its places become 0, so that nothing of it is left in the tables.
    pub fn pop(&mut self, count: usize)
        requires { Holds count (word_in self.old) × (1 ≤ count) }
        ensures room { word_in self.new ≡ with_pending count (pending_first (word_in self.old) (count - 1)) (word_in self.old) }
        ensures same { SameWord self.old self.new }
    {
        self.cases[count - 1] = 0;
        self.symbols[count - 1] = 0;
    }

    // Nothing is pending any more.
    pub fn clear_first(&mut self, count: usize)
        requires { Holds count (word_in self.old) }
        ensures room { word_in self.new ≡ with_word count [] (word_in self.old) }
        ensures same { SameWord self.old self.new }
    {
        // `0..count`: of `..count` a proof would not learn what stands behind.
        self.cases[0..count].fill(0);
        self.symbols[0..count].fill(0);
    }

    // The word: the given symbol, then the symbols that led to the pending cases from the lowest level up. The symbols stand highest level first, and
    // none led to the case in the first place: so the given symbol takes that place, and those behind it are turned round.
    pub fn write_word(&mut self, count: usize, symbol: Symbol)
        requires { Holds count (word_in self.old) × (1 ≤ count) }
        ensures room { word_in self.new ≡ with_word count (symbol.0 ∷ word_of (pending_first (word_in self.old) count)) (word_in self.old) }
        ensures same { SameWord self.old self.new }
    {
        self.cases[0..count].fill(0);
        self.symbols[0] = symbol.0;
        self.symbols[1..count].reverse();
    }
}
