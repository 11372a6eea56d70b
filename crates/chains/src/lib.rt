// Numbers in chains, by a key that each has: one table tells for each key the last number that has it, a second for each number the one before it with the
// same key. In the tables numbers stand with 1 added, and 0 ends a chain: a table of options has twice the bytes to be cleared. Assumes nothing.
#![tactic(auto)]

ghost use Rattle.std.specs.Prelude.{◌≡◌, ◌+◌, ◌<◌, length, get_or, set as put};
ghost use Rattle.chains.specs.Chained.{told_number};

// The number that a table tells at a place, if it tells one.
pub fn told(table: &[u16], place: usize) -> Option<usize>
    requires { place < length table.now }
    ensures { result ≡ told_number (get_or table.now place 0) }
{
    usize::from(table[place]).checked_sub(1)
}

// The number becomes the last that has the key.
pub fn link(lasts: &mut [u16], links: &mut [u16], key: usize, number: usize)
    requires { (key < length lasts.old) × (number < length links.old) × (number + 1 < 65536) }
    ensures { (lasts.new ≡ put lasts.old key (number + 1))
        × (links.new ≡ put links.old number (get_or lasts.old key 0)) }
{
    links[number] = lasts[key];
    // that it fits is known, where `try_from` would have an error to handle
    lasts[key] = (number + 1) as u16;
}
