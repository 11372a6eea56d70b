// The blockers that cover a set, listed once by their masks: what covers a larger set is among them, and they are few. Assumes nothing.
#![tactic(auto)]

ghost use Rattle.std.specs.Prelude.{◌≡◌, true, ◌<◌, length, option_copied};
ghost use Rattle.machine.specs.Machine.{settled as is_settled};
ghost use Rattle.machine.specs.Lent.{blocker_at, unstamped_room};
ghost use Rattle.blockers.specs.Tables.{held_in};
ghost use Rattle.covering.specs.Listed.{one_holds, part, ListedOne, Listed, Tells};

use blockers::Level;
use blockers::reasons::Blockers;

// The mask of the blocker at the place joins the list that ends at `end` if it covers p; answers where the list then ends, or none if the table is full. It is
// written first and counts only then, so that there is no branch to predict.
fn list_one(
    blockers: &Blockers<'_>,
    below: Level,
    p: u64,
    near: &mut [u64],
    end: usize,
    place: usize,
) -> Option<usize>
    requires { (place < length blockers.now.masks.now) × (place < length blockers.now.levels.now) }
    ensures { ListedOne below.0 p (blocker_at (unstamped_room blockers.now.masks.now blockers.now.levels.now) place) near.old near.new end result }
{
    if near.len() <= end {
        return None;
    }
    near[end] = blockers.masks[place];
    if blockers.reason_at(place, below, p).is_none() {
        return Some(end);
    }
    Some(end + 1)
}

// The masks of the blockers that cover p stand from `start` on; answers where they end. Where there is no place to start, or they do not fit, there is none.
// The walk goes on where `after` says, which no range says.
pub fn list_on(
    blockers: &Blockers<'_>,
    below: Level,
    p: u64,
    near: &mut [u64],
    start: Option<usize>,
) -> Option<usize>
    ensures { Listed (held_in blockers.now) below.0 p near.old near.new start result }
{
    let mut end = start?;
    let count = blockers.count();
    let mut i = blockers.skip_first(below, p);
    while i < count {
        end = list_one(blockers, below, p, near, end, i)?;
        i = blockers.after(i, below, p);
    }
    Some(end)
}

// The list that stands between two places of the table.
pub fn listed(near: &[u64], from: Option<usize>, to: Option<usize>) -> Option<&[u64]>
    ensures { option_copied result ≡ part near.now from to }
{
    near.get(from?..to?)
}

// Whether one of the masks contains p.
fn one_contains(list: &[u64], p: u64) -> bool
    ensures { result ≡ one_holds list.now p }
{
    list.iter().any(|mask| masks::adds_none(p, *mask))
}

// Whether p, which contains the set whose covers are listed, is inside y or blocked one level below. Where they are not listed, each blocker is asked.
pub fn is_settled(
    initial: u64,
    blockers: &Blockers<'_>,
    below: Level,
    y: u64,
    p: u64,
    listed: Option<&[u64]>,
) -> bool
    requires { Tells initial (held_in blockers.now) below.0 (option_copied listed) p }
    ensures { result ≡ is_settled initial (held_in blockers.now) below.0 y p }
{
    masks::subset(p, y)
        || match listed {
            Some(list) => one_contains(list, p),
            None => blockers.block(initial, below, p),
        }
}

// The same where p may be a set that is known to be settled.
pub fn settled_anew(
    initial: u64,
    blockers: &Blockers<'_>,
    below: Level,
    y: u64,
    p: u64,
    before: u64,
    listed: Option<&[u64]>,
) -> bool
    requires told { Tells initial (held_in blockers.now) below.0 (option_copied listed) p }
    requires known { p ≡ before → true ≡ is_settled initial (held_in blockers.now) below.0 y p }
    ensures { result ≡ is_settled initial (held_in blockers.now) below.0 y p }
{
    p == before || is_settled(initial, blockers, below, y, p, listed)
}
