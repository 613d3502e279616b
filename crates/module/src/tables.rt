// The tables by which a handle finds its record, in one lent slice of numbers: a row for each function, then the offsets of types,
// globals and items (arguments, locals, expressions and statements, in the file's order), the first statement of each block, a
// mark for each expression of the function that is read, and the counts of the whole.
// Stays: one slice. An array for each region is no plainer: each law over the words would stand once for each, and callers lend a struct.
ghost use Rattle.std.specs.Prelude.{◌≡◌, ◌+◌, ◌<◌, ◌^◌, get_or, set};
ghost use Rattle.module.specs.Tables.{word, items_at, row_at, set_row, locals_from, expressions_from, statements_from, items_to};

use crate::handles::FunctionHandle;
use field::limits::{MAX_BYTES, MAX_EXPRESSIONS, MAX_FUNCTIONS, MAX_GLOBALS, MAX_TYPES};

// A record has at least its header.
pub const MAX_ITEMS: usize = MAX_BYTES / 4;

pub const TYPES: usize = 8 * MAX_FUNCTIONS;

pub const GLOBALS: usize = TYPES + MAX_TYPES;

pub const ITEMS: usize = GLOBALS + MAX_GLOBALS;

pub const BLOCKS: usize = ITEMS + MAX_ITEMS;

pub const MARKS: usize = BLOCKS + MAX_ITEMS;

pub const HEAD: usize = MARKS + MAX_EXPRESSIONS;

pub const WORDS: usize = HEAD + 3;

// Of a function: the offset of its FN, how many items and blocks there are before it, and how many of each it has.
#[derive(Clone, Copy, Debug, Default, PartialEq, Eq)]
pub struct Row {
    pub offset: u32,
    pub items: u32,
    pub arguments: u32,
    pub locals: u32,
    pub expressions: u32,
    pub statements: u32,
    pub earlier: u32,
    pub blocks: u32,
}

// The items of each sort, from the function's first, and one past its last.
impl Row {
    pub fn locals_from(self) -> usize
        ensures { result ≡ locals_from self }
    {
        (self.items as usize) + (self.arguments as usize)
    }

    pub fn expressions_from(self) -> usize
        ensures { result ≡ expressions_from self }
    {
        self.locals_from() + (self.locals as usize)
    }

    pub fn statements_from(self) -> usize
        ensures { result ≡ statements_from self }
    {
        self.expressions_from() + (self.expressions as usize)
    }

    pub fn items_to(self) -> usize
        ensures { result ≡ items_to self }
    {
        self.statements_from() + (self.statements as usize)
    }
}

// How far a file has come: what the last record was of, and types before the first. A function's head counts with its arguments,
// statements with blocks.
pub const IN_TYPES: u32 = 0;

pub const IN_GLOBALS: u32 = 1;

pub const IN_ARGUMENTS: u32 = 2;

pub const IN_LOCALS: u32 = 3;

pub const IN_EXPRESSIONS: u32 = 4;

pub const IN_BLOCKS: u32 = 5;

// How far a file has come, how many of each there are, and the row of the open function.
#[derive(Clone, Copy, Debug, PartialEq, Eq)]
pub struct Counts {
    pub stage: u32,
    pub types: u32,
    pub globals: u32,
    pub functions: u32,
    pub row: Row,
}

// The number at i, and 0 past the end.
pub fn word(t: &[u32], i: usize) -> u32
    ensures { result ≡ get_or t.now i 0 }
{
    t.get(i).copied().unwrap_or(0)
}

// Where the item i of the file stands.
pub fn item(t: &[u32], i: usize) -> u32
    requires { i < 2 ^ 35 }
    ensures { result ≡ word t.now (items_at + i) }
{
    word(t, ITEMS + i)
}

// Past the end nothing is written.
pub fn put(t: &mut [u32], i: usize, value: u32)
    ensures { t.new ≡ set t.old i value }
{
    if i < t.len() {
        t[i] = value;
    }
}

pub fn row_at(t: &[u32], f: FunctionHandle) -> Row
    ensures { result ≡ row_at t.now f.0 }
{
    let at = 8 * (f.0 as usize);
    Row {
        offset: word(t, at),
        items: word(t, at + 1),
        arguments: word(t, at + 2),
        locals: word(t, at + 3),
        expressions: word(t, at + 4),
        statements: word(t, at + 5),
        earlier: word(t, at + 6),
        blocks: word(t, at + 7),
    }
}

pub fn set_row(t: &mut [u32], f: FunctionHandle, r: Row)
    ensures { t.new ≡ set_row t.old f.0 r }
{
    let at = 8 * (f.0 as usize);
    put(t, at, r.offset);
    put(t, at + 1, r.items);
    put(t, at + 2, r.arguments);
    put(t, at + 3, r.locals);
    put(t, at + 4, r.expressions);
    put(t, at + 5, r.statements);
    put(t, at + 6, r.earlier);
    put(t, at + 7, r.blocks);
}
