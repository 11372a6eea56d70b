// The rises of a close by an index of the blockers that may cover. A blocker that leaves sinks to level 0 where it stands, so that nothing closes up before
// all have risen. So no blocker may be of level 0 before.
#![tactic(auto)]

ghost use Rattle.std.specs.Prelude.{◌≡◌, ◌≤◌, ◌<◌, length, get_or};
ghost use Rattle.machine.specs.Lent.{blockers_from, unstamped_room};
ghost use Rattle.machine.specs.Runs.{system_of};
ghost use Rattle.indexing.specs.Index.{Lists};
ghost use Rattle.sinking.specs.Sunk.{each_covered, TriedIn, LevelRisen, AllRisen};

use automata::backward::backward;
use automata::image::{Image, Symbol};
use blockers::reasons::Blockers;
use blockers::{Level, sizes};
use indexing::index::Index;
use indexing::leaving::Lacks;
use indexing::searching::{self, AtLevel};

// Whether each backward set of the mask is a subset of a blocker of this level or more.
fn each_covered<const N: usize>(
    image: &Image<'_>,
    blockers: &Blockers<'_>,
    index: &Index<N>,
    level: Level,
    mask: u64,
) -> bool
    requires { Lists level.0 blockers.now.masks.now blockers.now.levels.now index.now }
    ensures { result ≡ each_covered (system_of image.now)
        (blockers_from (unstamped_room blockers.now.masks.now blockers.now.levels.now) (length blockers.now.masks.now) 0) level.0 mask }
{
    for s in 0..image.head().symbols {
        let p = backward(image, Symbol(s), mask).set;
        if !index.is_covered(blockers, level, p) {
            return false;
        }
    }
    true
}

// The blocker at `place` rises in its place if each of its backward sets is a subset of a blocker of this level or more.
fn try_rise<const N: usize>(
    image: &Image<'_>,
    lacks: &Lacks<'_, N>,
    levels: &mut [u32],
    index: &Index<N>,
    level: Level,
    place: usize,
)
    requires { Lists level.0 lacks.now.masks.now levels.old index.now
        × (place < length lacks.now.masks.now) × (get_or levels.old place 0 < 4294967295) }
    ensures { TriedIn (each_covered (system_of image.now)
        (blockers_from (unstamped_room lacks.now.masks.now levels.old) (length lacks.now.masks.now) 0) level.0 (get_or lacks.now.masks.now place 0))
        place (length lacks.now.masks.now) lacks.now.masks.now levels.old levels.new }
{
    let masks = lacks.masks;
    if each_covered(
        image,
        &Blockers { masks, levels },
        index,
        level,
        masks[place],
    ) {
        lacks.rise_in_place(levels, place);
    }
}

// In table order, each blocker of this level that can rise does so in its place.
fn rise_level<const N: usize>(
    image: &Image<'_>,
    lacks: &Lacks<'_, N>,
    levels: &mut [u32],
    index: &Index<N>,
    level: Level,
)
    requires { Lists level.0 lacks.now.masks.now levels.old index.now × (1 ≤ level.0) × (level.0 < 4294967295) }
    ensures { LevelRisen (system_of image.now) level.0 (length lacks.now.masks.now) lacks.now.masks.now levels.old levels.new }
{
    let held = lacks.masks.len();
    // the levels change on the way, so no iterator holds them
    let mut from = 0;
    while let Some(place) = searching::next(levels, from, held, &AtLevel(level)) {
        try_rise(image, lacks, levels, index, level, place);
        from = place + 1;
    }
}

// The index for this level: the old one, or one that is gathered anew for level 1, and where the level is a multiple of `every`.
fn regather<const N: usize>(index: &mut Index<N>, blockers: &Blockers<'_>, level: Level, every: u32)
    requires { (1 < level.0 → Lists level.0 blockers.now.masks.now blockers.now.levels.now index.old)
        × (length blockers.now.masks.now ≤ length blockers.now.levels.now) × (1 ≤ every) }
    ensures { Lists level.0 blockers.now.masks.now blockers.now.levels.now index.new }
{
    if level.0 == 1 || level.0 % every == 0 {
        index.gather(blockers, level);
    }
}

// The rises at each level from 1 to `top`, one level after another, by an index of N places that is gathered anew every so many levels. Not inlined, so
// that the index takes stack only where it is used.
#[inline(never)]
fn rise_levels<const N: usize>(image: &Image<'_>, masks: &[u64], levels: &mut [u32], top: Level)
    requires { (length masks.now ≤ length levels.old) × (top.0 < 4294967295) × (N ≤ 4096) }
    ensures { AllRisen (system_of image.now) top.0 (length masks.now) masks.now levels.old levels.new }
{
    let mut lacks = Lacks::<'_, N>::new();
    lacks.gather(masks);
    let mut index = Index::<N>::new();
    let every = top.0 / sizes::GATHERINGS + 1;
    for number in 1..=top.0 {
        let level = Level(number);
        let blockers = Blockers {
            masks: lacks.masks,
            levels,
        };
        regather(&mut index, &blockers, level, every);
        rise_level(image, &lacks, levels, &index, level);
    }
}

// The rises at each level from 1 to `top`, by an index in a room on the stack that is no larger than it needs. More blockers may be held than one ever has
// places for: those that it does not reach are asked one by one.
pub fn rise_in_room(image: &Image<'_>, masks: &[u64], levels: &mut [u32], top: Level)
    requires { (length masks.now ≤ length levels.old) × (top.0 < 4294967295) }
    ensures { AllRisen (system_of image.now) top.0 (length masks.now) masks.now levels.old levels.new }
{
    if masks.len() <= sizes::FEW_INDEXED {
        rise_levels::<{ sizes::FEW_INDEXED }>(image, masks, levels, top);
    } else if masks.len() <= sizes::MANY_INDEXED {
        rise_levels::<{ sizes::MANY_INDEXED }>(image, masks, levels, top);
    } else {
        rise_levels::<{ sizes::MOST_INDEXED }>(image, masks, levels, top);
    }
}
