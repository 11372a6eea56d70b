// Searches along a table for the first place that passes a test. Sixteen places are tested before a branch asks, so that the compiler tests them at once.
ghost use Rattle.std.specs.Prelude.{◌≡◌, ◌+◌, ◌≤◌, ◌%◌, ℕ, Bool, length, eqb};
ghost use Rattle.masks.specs.Sets.{subset as is_subset};
ghost use Rattle.indexing.specs.Index.{NoneOf, Passed, Finds};

use blockers::Level;

// A test of an entry. Each search is compiled for its test, so that the test stands in the loop.
pub trait Test {
    ghost passed_by: { Self → ℕ → Bool };

    fn passes(&self, entry: u32) -> bool
        ensures { result ≡ passed_by self.now entry };
}

// Whether it is this level.
#[derive(Clone, Copy)]
pub struct AtLevel(pub Level);

impl Test for AtLevel {
    ghost passed_by = { λ test entry. eqb entry test.0.0 };

    fn passes(&self, entry: u32) -> bool {
        Level(entry) == self.0
    }
}

// Whether it contains this set, of sets of the states below 32.
#[derive(Clone, Copy)]
pub struct Containing(pub u32);

impl Test for Containing {
    ghost passed_by = { λ test entry. is_subset test.0 entry };

    #[tactic(auto, unfolding(masks::specs::Sets::subset))]
    fn passes(&self, entry: u32) -> bool {
        self.0 & entry == self.0
    }
}

// The states below 32 of a set.
pub fn low_half(mask: u64) -> u32
    ensures { result ≡ mask % 4294967296 }
{
    // what is left of the division fits
    (mask % 4294967296) as u32
}

// Whether one of the sixteen places from `at` on passes.
fn one_of_sixteen<T: Test>(table: &[u32], at: usize, test: &T) -> bool
    requires { at + 16 ≤ length table.now }
    ensures { NoneOf (T.passed_by test.now) table.now at 16 result }
{
    let mut found = false;
    for i in 0..16 {
        found |= test.passes(table[at + i]);
    }
    found
}

// How far no place from `from` on and before `to` passes: up to sixteen of which one does, or where the table has fewer. The last sixteen may reach behind
// `to`.
fn pass<T: Test>(table: &[u32], from: usize, to: usize, test: &T) -> usize
    requires { (from ≤ to) × (to ≤ length table.now) }
    ensures { Passed (T.passed_by test.now) table.now from to result }
{
    // A `for` by `step_by` counts its steps beside the place, which was slower by a tenth.
    let mut i = from;
    while i < to {
        if table.len() - i < 16 || one_of_sixteen(table, i, test) {
            return i;
        }
        i += 16;
    }
    to
}

// The first place from `from` on and before `to` that passes.
pub fn next<T: Test>(table: &[u32], from: usize, to: usize, test: &T) -> Option<usize>
    requires { (from ≤ to) × (to ≤ length table.now) }
    ensures { Finds (T.passed_by test.now) table.now from to result }
{
    for i in pass(table, from, to, test)..to {
        if test.passes(table[i]) {
            return Some(i);
        }
    }
    None
}
