// A store of pieces: immutable cells in a lent slice, seven words to a cell: its index, the number of its child, that of its rest,
// its entries, its depth, twice its width (and 1 more where it passes a limit), and a mark that only `collect` uses.
// The number 0 is all, 1 is exist, 2 is the empty part, and n from 3 on is the cell at 7n. The slice's first word is the next free number.
// Stays: one slice of words, of any length (part_run's, a walk's): rows and tables as arrays of their own would give each function their const lengths.
// Stays: a piece is a number, since words hold it: with a type of its own each law on `part s n` would carry a projection.
ghost use Rattle.std.specs.Prelude.{◌≡◌, ◌+◌, ◌*◌, ◌≤◌, ◌<◌, min, length, set};
ghost use Rattle.part.specs.PartReq.{more, entries, depth, width, over};
ghost use Rattle.part.specs.StoreLimits.{cell_words, store_words, entries_cap, buckets, table_words};
ghost use Rattle.part.specs.Store.{word, top, part, Measures, Passes, SizesOf, Formed, Good, Room, Made, Seen, Holds, Put, hash, Linked, Distinct, Finds, Chained, Emptied, Rebuilt, Blank, Fresh};

use crate::limits::{BUCKETS, CELL_WORDS, ENTRIES_CAP, SPINE, TABLE_WORDS};
use field::limits::{MAX_DEPTH, MAX_ENTRIES};

// The pieces that are no cells: all, exist, and the empty part. Each number above is a cell's.
pub const ALL_PIECE: u32 = 0;

pub const EXIST_PIECE: u32 = 1;

pub const EMPTY_PIECE: u32 = 2;

pub(crate) const FIRST_CELL: u32 = 3;

// An entry and those after it.
#[derive(Clone, Copy, PartialEq, Eq)]
pub struct Cell {
    pub index: u32,
    pub child: u32,
    pub rest: u32,
}

// What limits ask of a requirement: its entries at every depth (as far as they are counted), its depth, the entries on its first
// level, and whether a part at or below passes a limit.
#[derive(Clone, Copy)]
pub struct Sizes {
    pub entries: u32,
    pub depth: u32,
    pub width: u32,
    pub over: bool,
}

// The word k of the piece n.
pub(crate) fn word(cells: &[u32], n: u32, k: usize) -> u32
    requires { (cell_words * n + k < length cells.now) × (k < cell_words) }
    ensures { result ≡ word cells.now n k }
{
    let at = CELL_WORDS * (n as usize) + k;
    cells[at]
}

pub(crate) fn set_word(cells: &mut [u32], n: u32, k: usize, v: u32)
    requires { (cell_words * n + k < length cells.old) × (k < cell_words) }
    ensures { cells.new ≡ set cells.old (cell_words * n + k) v }
{
    let at = CELL_WORDS * (n as usize) + k;
    cells[at] = v;
}

// The chain that the cell index, child, rest is in. The rest is added last and unmultiplied: cells made one after another come into neighbouring chains.
pub(crate) fn hash(index: u32, child: u32, rest: u32) -> usize
    ensures { (result ≡ hash index child rest) × (result < buckets) }
{
    let x = (index as u64) * 334214459 + (child as u64) * 479001599;
    ((x / 65536 + rest as u64) % BUCKETS as u64) as usize
}

// Takes every cell out of its chain, and forgets every sum.
pub(crate) fn empty(cells: &mut [u32])
    requires { table_words ≤ length cells.old }
    ensures { Emptied cells.old cells.new table_words }
{
    let base = cells.len() - TABLE_WORDS;
    cells[base..].fill(0);
}

// Puts the cell n before the others of its chain.
pub(crate) fn link(cells: &mut [u32], n: u32)
    requires { cell_words * n + cell_words + table_words ≤ length cells.old }
    ensures { Chained cells.old cells.new n }
{
    let h = hash(word(cells, n, 0), word(cells, n, 1), word(cells, n, 2));
    let at = cells.len() - TABLE_WORDS + h;
    let first = cells[at];
    set_word(cells, n, 6, first);
    cells[at] = n;
}

// Puts every cell into its chain, where all are empty.
fn relink(cells: &mut [u32])
    requires formed { Formed cells.old }
    requires distinct { Distinct cells.old (top cells.old) }
    requires linked { Linked cells.old 3 × Blank cells.old }
    ensures { Rebuilt cells.old cells.new }
{
    let end = cells[0];
    for n in FIRST_CELL..end {
        link(cells, n);
    }
}

// Makes the chains anew.
pub(crate) fn rebuild(cells: &mut [u32])
    requires formed { Formed cells.old }
    requires distinct { Distinct cells.old (top cells.old) }
    ensures { Rebuilt cells.old cells.new }
{
    empty(cells);
    relink(cells);
}

// A store with no cell in use.
pub fn init(cells: &mut [u32])
    requires { (cell_words * 3 + table_words ≤ length cells.old) × (length cells.old ≤ store_words) }
    ensures { Good cells.new × (top cells.new ≡ 3) × (length cells.new ≡ length cells.old) }
{
    empty(cells);
    cells[0] = FIRST_CELL;
}

// What stands in the cell n.
pub fn look(cells: &[u32], n: u32) -> Cell
    requires good { Good cells.now }
    requires lt_n { (2 < n) × (n < top cells.now) }
    ensures { Seen cells.now n result.index result.child result.rest }
{
    peek(cells, n)
}

// What stands in the cell n, whatever the chains are.
pub(crate) fn peek(cells: &[u32], n: u32) -> Cell
    requires formed { Formed cells.now }
    requires lt_n { (2 < n) × (n < top cells.now) }
    ensures { Seen cells.now n result.index result.child result.rest }
{
    Cell {
        index: word(cells, n, 0),
        child: word(cells, n, 1),
        rest: word(cells, n, 2),
    }
}

// The sizes of the piece n.
pub fn measure(cells: &[u32], n: u32) -> Sizes
    requires good { Good cells.now }
    requires n_bound { n < top cells.now }
    ensures { Measures (part cells.now n) result.entries result.depth result.width result.over }
{
    if n <= EXIST_PIECE {
        return Sizes {
            entries: 0,
            depth: 0,
            width: 0,
            over: false,
        };
    }
    if n == EMPTY_PIECE {
        return Sizes {
            entries: 0,
            depth: 1,
            width: 0,
            over: false,
        };
    }
    let packed = word(cells, n, 5);
    Sizes {
        entries: word(cells, n, 3),
        depth: word(cells, n, 4),
        width: packed / 2,
        over: packed % 2 == 1,
    }
}

// The entries of the piece n at every depth, as far as they are counted.
pub fn entries(cells: &[u32], n: u32) -> u32
    requires good { Good cells.now }
    requires n_bound { n < top cells.now }
    ensures { result ≡ min entries_cap (entries (part cells.now n)) }
{
    measure(cells, n).entries
}

pub fn depth(cells: &[u32], n: u32) -> u32
    requires good { Good cells.now }
    requires n_bound { n < top cells.now }
    ensures { result ≡ depth (part cells.now n) }
{
    measure(cells, n).depth
}

pub fn width(cells: &[u32], n: u32) -> u32
    requires good { Good cells.now }
    requires n_bound { n < top cells.now }
    ensures { result ≡ width (part cells.now n) }
{
    measure(cells, n).width
}

// Whether a part at or below the piece n passes a limit.
pub fn over(cells: &[u32], n: u32) -> bool
    requires good { Good cells.now }
    requires n_bound { n < top cells.now }
    ensures { result ≡ over (part cells.now n) }
{
    measure(cells, n).over
}

// Whether a limit is passed: by the child, by the rest, or by the part itself, where it is one, since it is too deep or too wide.
fn passes(index: u32, depth: u32, width: u32, child: bool, rest: bool) -> bool
    ensures { Passes index depth width child rest result }
{
    child || rest || index < SPINE && (MAX_DEPTH < depth as usize || MAX_ENTRIES < width as usize)
}

// The sizes of the requirement whose first entry is index: p and whose others are r.
pub fn sizes_of(index: u32, p: Sizes, r: Sizes) -> Sizes
    requires entries_le_entries_cap { (p.entries ≤ entries_cap) × (r.entries ≤ entries_cap) }
    requires depth_le_store_words { (p.depth ≤ store_words) × (r.width ≤ store_words) }
    ensures { SizesOf index p.entries p.depth p.width p.over r.entries r.depth r.width r.over result.entries result.depth result.width result.over }
{
    let entries = ENTRIES_CAP.min(1 + (p.entries + r.entries));
    let depth = (1 + p.depth).max(r.depth);
    let width = 1 + r.width;
    let over = passes(index, depth, width, p.over, r.over);
    Sizes {
        entries,
        depth,
        width,
        over,
    }
}

// Writes the cell n, but for its mark.
pub(crate) fn put(cells: &mut [u32], n: u32, x: Cell, entries: u32, depth: u32, packed: u32)
    requires { cell_words * n + cell_words ≤ length cells.old }
    ensures { Put cells.old cells.new n x.index x.child x.rest entries depth packed }
{
    set_word(cells, n, 0, x.index);
    set_word(cells, n, 1, x.child);
    set_word(cells, n, 2, x.rest);
    set_word(cells, n, 3, entries);
    set_word(cells, n, 4, depth);
    set_word(cells, n, 5, packed);
}

// The piece that is the cell index, child, rest, where there is one.
pub(crate) fn find(cells: &[u32], index: u32, child: u32, rest: u32) -> Option<u32>
    requires { Good cells.now }
    ensures { Finds cells.now index child rest result }
{
    let h = hash(index, child, rest);
    let at = cells.len() - TABLE_WORDS + h;
    let mut n = cells[at];
    // Stays: a chain goes by the number in its cells' last word; an iterator with a contract by `Linked` would serve this one loop.
    while EMPTY_PIECE < n {
        let x = look(cells, n);
        if x == (Cell { index, child, rest }) {
            return Some(n);
        }
        n = word(cells, n, 6);
    }
    None
}

// The requirement whose first entry is index: child and whose others are those of rest: the piece that is it already, or a new one.
pub(crate) fn fresh(cells: &mut [u32], index: u32, child: u32, rest: u32) -> u32
    requires good { Good cells.old }
    requires room { Room cells.old 1 }
    requires child_bound { (child < top cells.old) × (rest < top cells.old) }
    ensures { Fresh cells.old cells.new (more index (part cells.old child) (part cells.old rest)) result }
{
    if let Some(old) = find(cells, index, child, rest) {
        return old;
    }
    let p = measure(cells, child);
    let r = measure(cells, rest);
    let m = sizes_of(index, p, r);
    let n = cells[0];
    let x = Cell { index, child, rest };
    put(
        cells,
        n,
        x,
        m.entries,
        m.depth,
        2 * m.width + u32::from(m.over),
    );
    link(cells, n);
    cells[0] = n + 1;
    n
}

// The same, for callers that need not know which cells are new.
pub fn make(cells: &mut [u32], index: u32, child: u32, rest: u32) -> u32
    requires good { Good cells.old }
    requires room { Room cells.old 1 }
    requires child_bound { (child < top cells.old) × (rest < top cells.old) }
    ensures { Made cells.old cells.new (more index (part cells.old child) (part cells.old rest)) 1 result }
{
    fresh(cells, index, child, rest)
}

// What `make` makes of the index of x; the piece old itself, which is x, where nothing else is asked.
pub fn remake(cells: &mut [u32], old: u32, x: Cell, child: u32, rest: u32) -> u32
    requires good { Good cells.old }
    requires room { Room cells.old 1 }
    requires child_bound { (child < top cells.old) × (rest < top cells.old) }
    requires holds { Holds cells.old old x.index x.child x.rest }
    ensures { Made cells.old cells.new (more x.index (part cells.old child) (part cells.old rest)) 1 result }
{
    if x.child == child && x.rest == rest {
        return old;
    }
    make(cells, x.index, child, rest)
}
