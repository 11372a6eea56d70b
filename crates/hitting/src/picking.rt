// The picks: the state that meets most of the sets not yet met, the lowest of these, until all are met. A set is counted for all its states at once: the
// counts stand in planes, bit q of plane j being bit j of the count of state q.
ghost use Rattle.std.specs.Prelude.{◌≡◌, ◌≤◌, ◌<◌, length, take};
ghost use Rattle.machine.specs.Hitting.{unmet, picked as picked_states};
ghost use Rattle.hitting.specs.Sets.{Gathered, with_carry, count_all, narrowed, highest as highest_of, Best};

use masks::State;

// One more for each state of the set. The carry runs from plane to plane until there is none.
fn count_set(planes: &mut [u64], set: u64)
    ensures { planes.new ≡ with_carry set planes.old }
{
    let mut carry = set;
    for plane in planes.iter_mut() {
        if carry == 0 {
            return;
        }
        let both = *plane & carry;
        *plane ^= carry;
        carry = both;
    }
}

// One more for each state of each of the sets.
fn count_sets(planes: &mut [u64], sets: &[u64])
    ensures { planes.new ≡ count_all planes.old sets.now }
{
    for set in sets {
        count_set(planes, *set);
    }
}

// Those of the states that are in the plane, if one is.
#[tactic(auto, using(crate::proofs::Planes::narrows_none, crate::proofs::Planes::narrows_some))]
fn narrow(states: u64, plane: u64) -> u64
    ensures { result ≡ narrowed states plane }
{
    let inside = states & plane;
    if inside == 0 {
        return states;
    }
    inside
}

// Those of the states whose count is the highest.
fn highest(states: u64, planes: &[u64]) -> u64
    ensures { result ≡ highest_of states planes.now }
{
    planes
        .iter()
        .rev()
        .fold(states, |left, plane| narrow(left, *plane))
}

// The state below n that meets most of the sets, the lowest of these.
fn best(n: u8, sets: &[u64]) -> State
    requires { (1 ≤ n) × (n ≤ 64) × (length sets.now < 8192) }
    ensures { Best n sets.now result.0 }
{
    let mut planes = [0u64; 13];
    count_sets(&mut planes, sets);
    masks::lowest_absent(highest(masks::full(n), &planes), 0)
}

// The sets without the state close up; answers how many they are. They close up in the table that is lent: there is no heap for another.
fn keep_unmet(sets: &mut [u64], q: State) -> usize
    requires { q.0 < 64 }
    ensures { Gathered (unmet q.0 sets.old) result sets.new }
{
    let mut kept: usize = 0;
    for i in 0..sets.len() {
        let set = sets[i];
        if masks::member(q, set) {
            continue;
        }
        sets[kept] = set;
        kept += 1;
    }
    kept
}

// The states picked until the sets are all met. The table is used up. There are as many turns as sets, and not as many as it takes: that each pick meets a set
// is more than what `best` says.
pub(crate) fn pick(n: u8, sets: &mut [u64]) -> u64
    requires { (1 ≤ n) × (n ≤ 64) × (length sets.old < 8192) }
    ensures { result ≡ picked_states n sets.old }
{
    let mut left = sets.len();
    let mut picked: u64 = 0;
    for _turn in 0..sets.len() {
        if left == 0 {
            return picked;
        }
        let q = best(n, &sets[..left]);
        left = keep_unmet(&mut sets[..left], q);
        picked = masks::insert(q, picked);
    }
    picked
}
