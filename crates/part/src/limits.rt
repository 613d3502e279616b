// The bounds of a store, each with its definition in specs/StoreLimits.antt.

// The words of a cell of a store.
pub const CELL_WORDS: usize = 7;

// The most words that a store may have: a number of a piece, and its sizes, fit 32 bits.
pub const STORE_WORDS: usize = 2097152;

// Entries are counted up to this many, above every limit on pieces: a tree that is shared can have far more entries than cells.
pub const ENTRIES_CAP: u32 = 1048576;

// Indexes from here on are a context's own, for its variables. A file's indexes are below.
pub const SPINE: u32 = 65536;

// The chains of the look-up, whose first numbers stand in the last words of a store.
pub const BUCKETS: usize = 16384;

// The sums that are remembered, three words each, after the chains.
pub const MEMO_SLOTS: usize = 4096;

// The words of chains and remembered sums.
pub const TABLE_WORDS: usize = 28672;
