// Sets of states as masks of 64 bits: bit q stands for state q.
#![tactic(auto)]

ghost use Rattle.std.specs.Prelude.{◌≡◌, false, ◌≤◌, ◌<◌};
ghost use Rattle.std.proofs.Math.Option.{some};
ghost use Rattle.lists.specs.Tests.{choose};
ghost use Rattle.masks.specs.Sets.{subset as is_subset, member as is_member, within as is_within, absent as is_absent};
ghost use Rattle.masks.specs.Sets.{without as set_without};
ghost use Rattle.masks.specs.Sets.{union, single, full as full_set, lowest_absent};

// A state's number.
#[derive(Clone, Copy, PartialEq, Eq)]
pub struct State(pub u8);

// Whether each state of a is in b.
pub fn subset(a: u64, b: u64) -> bool
    ensures { result ≡ is_subset a b }
{
    a & b == a
}

// Whether a adds no state to b, which is whether each state of a is in b. It names a once: that keeps a row's case one load in the walk over rows.
pub fn adds_none(a: u64, b: u64) -> bool
    ensures { result ≡ is_subset a b }
{
    a | b == b
}

// Whether the state q is in the set.
pub fn member(q: State, set: u64) -> bool
    requires { q.0 < 64 }
    ensures { result ≡ is_member q.0 set }
{
    set >> q.0 & 1 == 1
}

// Whether the state q is in a and absent from b.
pub fn absent(q: State, a: u64, b: u64) -> bool
    requires { q.0 < 64 }
    ensures { result ≡ is_absent a b q.0 }
{
    member(q, without(a, b))
}

// The states of a that are not in b.
pub fn without(a: u64, b: u64) -> u64
    ensures { result ≡ set_without a b }
{
    a & b ^ a
}

// The set with the state q put in.
pub fn insert(q: State, set: u64) -> u64
    requires { q.0 < 64 }
    ensures { result ≡ union set (single q.0) }
{
    set | 1u64 << q.0
}

// The set with the state q put in if the test holds. There is no branch to predict: this is the inner loop of backward sets.
pub fn insert_if(test: bool, q: State, set: u64) -> u64
    requires { q.0 < 64 }
    ensures { result ≡ choose test (union set (single q.0)) set }
{
    set | u64::from(test) << q.0
}

// The set of all n states.
pub fn full(n: u8) -> u64
    requires { (1 ≤ n) × (n ≤ 64) }
    ensures { result ≡ full_set n }
{
    18446744073709551615u64 >> (64 - n)
}

// Whether the set has no state at n or above; no mask has a state at 64 or above.
pub fn within(n: u8, set: u64) -> bool
    ensures { result ≡ is_within n set }
{
    if n == 0 {
        return set == 0;
    }
    if 64 < n {
        return true;
    }
    set <= full(n)
}

// The lowest state of a that is absent from b, where there is one.
pub fn lowest_absent(a: u64, b: u64) -> State
    requires { is_subset a b ≡ false }
    ensures { lowest_absent a b ≡ some result.0 }
{
    // below 64, where `try_from` would have an error to handle
    State(u64::trailing_zeros(without(a, b)) as u8)
}
