// From which sizes on a step works in tables of its own, and how large these are. They matter to no answer: docs/BENCHMARKS.md has the measurement that chose
// them.

// A growth by states works over tables where there are so many blockers for each symbol, or so many rows;
pub const SOME_BLOCKERS: usize = 8;

pub const MANY_ROWS: usize = 32;

// of fewer states than this, where there are so many blockers for each symbol. Else each state is tried by the whole test.
pub const FEW_STATES: u8 = 20;

pub const MANY_BLOCKERS: usize = 32;

// A growth takes short tables, which are soon cleared, for images of fewer rows than this.
pub const SHORT_ROWS: u16 = 512;

pub const SHORT_TABLE: usize = SHORT_ROWS as usize;

// How many masks of covering blockers a growth by states lists, for all symbols together.
pub const LISTED_COVERS: usize = 256;

// A close goes by an index where this many blockers are held.
pub const INDEXED_BLOCKERS: usize = 32;

// Room for the index of a close that holds no more blockers than this,
pub const FEW_INDEXED: usize = 128;

// or no more than this,
pub const MANY_INDEXED: usize = 512;

// and for every other; what it does not reach is asked one by one.
pub const MOST_INDEXED: usize = 4096;

// A close gathers its index about this many times, so that no more than such a part of the levels is listed in vain.
pub const GATHERINGS: u32 = 8;

// A close marks the levels that hold a blocker where there are this many; of fewer it searches for each.
pub const MARKED_LEVELS: u32 = 16;

// How many marks it has; where there are as many levels, it searches for each again.
pub const MARKS: usize = 2048;
