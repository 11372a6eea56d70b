// The slots by which the sets are chained: each set has one, which others may share.
ghost use Rattle.std.specs.Prelude.{◌≡◌, ◌+◌, ◌≤◌, ◌<◌, length, get_or, set as put};
ghost use Rattle.chains.specs.Chained.{told_number};
ghost use Rattle.hitting.specs.Slots.{mixed, slot_of};

// The number from which a set's slot is taken.
#[tactic(auto, unfolding(crate::specs::Slots::mixed))]
fn mix(set: u64) -> u64
    ensures { result ≡ mixed set }
{
    let low = set & 4294967295;
    let high = set >> 32;
    (low * 1540483477 + high * 739982445) >> 22
}

// The slot of a set.
fn slot_of(slots: &[u16], set: u64) -> usize
    requires { 1 ≤ length slots.now }
    ensures { (result ≡ slot_of (length slots.now) set) × (result < length slots.now) }
{
    // as Rust, std has no `From` between u64 and usize
    mix(set) as usize & (slots.len() - 1)
}

// The place of the last set that has the slot of this one, if one has.
pub(crate) fn last_of(slots: &[u16], set: u64) -> Option<usize>
    requires { 1 ≤ length slots.now }
    ensures { result ≡ told_number (get_or slots.now (slot_of (length slots.now) set) 0) }
{
    chains::told(slots, slot_of(slots, set))
}

// The set at a place is the last that has its slot.
pub(crate) fn link(slots: &mut [u16], links: &mut [u16], set: u64, place: usize)
    requires { (1 ≤ length slots.old) × (place < length links.old) × (place + 1 < 65536) }
    ensures { (slots.new ≡ put slots.old (slot_of (length slots.old) set) (place + 1))
        × (links.new ≡ put links.old place (get_or slots.old (slot_of (length slots.old) set) 0)) }
{
    let slot = slot_of(slots, set);
    chains::link(slots, links, slot, place);
}
