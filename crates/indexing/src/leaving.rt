// What leaves for a risen blocker: its subsets of that level or lower. Each sinks to level 0 where it stands. They are sought by the states that their masks
// lack, noted side by side: a subset lacks whatever the set lacks.
ghost use Rattle.std.specs.Prelude.{◌≡◌, [], ◌≤◌, ◌<◌, leb, length, get_or};
ghost use Rattle.lists.specs.Tests.{choose};
ghost use Rattle.masks.specs.Sets.{subset as is_subset};
ghost use Rattle.indexing.specs.Index.{Finds, lack_of, Noted, Sunk, RisenIn};

use crate::searching::{self, Containing};
use blockers::Level;

// The states below 32 that the mask lacks.
fn lacked(mask: u64) -> u32
    ensures { result ≡ lack_of mask }
{
    searching::low_half(masks::without(4294967295, mask))
}

// Notes what each mask lacks, as far as there is room.
pub fn note(masks: &[u64], lacks: &mut [u32])
    ensures { Noted (length masks.now) masks.now lacks.new }
{
    for i in 0..masks.len().min(lacks.len()) {
        lacks[i] = lacked(masks[i]);
    }
}

// The first of the masks from `from` on that is a subset of this one, mask by mask.
fn next_from(masks: &[u64], from: usize, mask: u64) -> Option<usize>
    requires { from ≤ length masks.now }
    ensures { Finds (λ other. is_subset other mask) masks.now from (length masks.now) result }
{
    for i in from..masks.len() {
        if masks::subset(masks[i], mask) {
            return Some(i);
        }
    }
    None
}

// The same, by what they lack where that is noted.
fn next_inside(masks: &[u64], lacks: &[u32], from: usize, mask: u64) -> Option<usize>
    requires { Noted (length masks.now) masks.now lacks.now × (from ≤ length masks.now) }
    ensures { Finds (λ other. is_subset other mask) masks.now from (length masks.now) result }
{
    let noted = masks.len().min(lacks.len());
    if noted <= from {
        return next_from(masks, from, mask);
    }
    let lack = Containing(lacked(mask));
    // the place goes on by hand, as in the search itself: sixteen are tested at once
    let mut at = from;
    while let Some(i) = searching::next(lacks, at, noted, &lack) {
        if masks::subset(masks[i], mask) {
            return Some(i);
        }
        at = i + 1;
    }
    next_from(masks, noted, mask)
}

// The level of a subset once a blocker has risen to `level`: 0 if it leaves.
#[tactic(auto, unfolding(lists::specs::Tests::choose))]
fn sunk(old: Level, level: Level) -> u32
    ensures { result ≡ choose (leb old.0 level.0) 0 old.0 }
{
    if old <= level { 0 } else { old.0 }
}

// The blockers of this level or lower that are subsets of the mask sink to level 0.
fn leave(masks: &[u64], levels: &mut [u32], lacks: &[u32], mask: u64, level: Level)
    requires { Noted (length masks.now) masks.now lacks.now × (length masks.now ≤ length levels.old) }
    ensures { Sunk mask level.0 (length masks.now) masks.now levels.old levels.new }
{
    // the levels change on the way, so no iterator holds them
    let mut from = 0;
    while let Some(i) = next_inside(masks, lacks, from, mask) {
        levels[i] = sunk(Level(levels[i]), level);
        from = i + 1;
    }
}

// The blocker at `place` rises by one level, and others of its new level or lower that are subsets of it sink to level 0.
pub fn rise_in_place(masks: &[u64], levels: &mut [u32], lacks: &[u32], place: usize)
    requires { Noted (length masks.now) masks.now lacks.now × (length masks.now ≤ length levels.old) × (place < length masks.now)
        × (get_or levels.old place 0 < 4294967295) }
    ensures { RisenIn place (length masks.now) masks.now levels.old levels.new }
{
    let mask = masks[place];
    let level = Level(levels[place]).above();
    leave(masks, levels, lacks, mask, level);
    levels[place] = level.0;
}

// The masks of blockers, and for the first of them the states below 32 that each lacks.
#[derive(Drop)]
pub struct Lacks<'a, const N: usize> {
    pub masks: &'a [u64],
    notes: [u32; N],
    ghost noted: { Noted (length masks.now) masks.now notes },
}

impl<'a, const N: usize> Lacks<'a, N> {
    // Of no masks.
    pub fn new() -> Self
        ensures { result.masks.now ≡ [] }
    {
        Lacks {
            masks: &[],
            notes: [0; N],
        }
    }

    // Of these masks, each as far as there is room; where the notes stand already, since a table that is made elsewhere is copied.
    pub fn gather(&mut self, masks: &'a [u64])
        ensures { self.new.masks.now ≡ masks.now }
    {
        self.masks = &[];
        note(masks, &mut self.notes);
        self.masks = masks;
    }

    // What each mask lacks, as far as there is room.
    pub fn note(masks: &'a [u64]) -> Self
        ensures { result.masks.now ≡ masks.now }
    {
        let mut lacks = Lacks::new();
        lacks.gather(masks);
        lacks
    }

    // The blocker at `place` rises by one level, and others of its new level or lower that are subsets of it sink to level 0.
    pub fn rise_in_place(&self, levels: &mut [u32], place: usize)
        requires { (length self.now.masks.now ≤ length levels.old) × (place < length self.now.masks.now)
            × (get_or levels.old place 0 < 4294967295) }
        ensures { RisenIn place (length self.now.masks.now) self.now.masks.now levels.old levels.new }
    {
        rise_in_place(self.masks, levels, &self.notes, place);
    }
}
