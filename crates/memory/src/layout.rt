// How the slots of a walk's memory are laid out, each with its definition in specs/Layout.antt.
use field::limits::{MAX_DEPTH, MAX_FUNCTIONS, MAX_PIECES};
use module::tables::MAX_ITEMS;
use part::limits::{CELL_WORDS, TABLE_WORDS};

pub const ALL: usize = 0;

pub const EXIST: usize = 1;

// The part that a statement asks with.
pub const ASK: usize = 2;

// What the result of the statement is asked for; or a context that is put aside.
pub const RESULT: usize = 3;

// What a called function needs of its arguments.
pub const RETURNED: usize = 4;

// The flat parts, those that a swizzle can ask: from FLAT on, by the code of their four digits.
pub const FLAT: usize = 5;

pub const FLATS: usize = 81;

// The digits of such a code: a component is not asked, is asked whole, or is asked to be there.
pub const UNASKED: usize = 0;

pub const WHOLE: usize = 1;

pub const THERE: usize = 2;

// The pruner's total of globals.
pub const GLOBALS: usize = FLAT + FLATS;

// The records of the open functions, by the expression's number among the file's items: the empty part, or {0: part}.
pub const EXPRS: usize = GLOBALS + 1;

// The records of the functions' totals.
pub const TOTALS: usize = EXPRS + MAX_ITEMS;

// The contexts of the functions' totals, four slots each.
pub const FUNCTIONS: usize = TOTALS + MAX_ITEMS;

// The open contexts, four slots each.
pub const STACK: usize = FUNCTIONS + 4 * MAX_FUNCTIONS;

// A block that holds others takes at most three contexts above its own, and has a statement: six slots for each block and statement.
pub const STACK_SLOTS: usize = 6 * MAX_ITEMS + 16;

pub const SLOTS: usize = STACK + STACK_SLOTS;

// The most cells that stay after a collection, and those that a visit may make by itself.
pub const LIVE: usize = 6 * MAX_PIECES + 12 + 4 * FLATS;

pub const ROOM: usize = 4 * MAX_PIECES + 4 * MAX_DEPTH + 16;

// The words of the store: its cells, and the table by which they are found.
pub const CELLS: usize = CELL_WORDS * (3 + LIVE + ROOM) + TABLE_WORDS;

// A part by value has this many positions and indexes.
pub const PATH: usize = 2 * MAX_DEPTH;
