// One entry joined to a map, as a walk joins what it asks of a variable: `contains`, `join` and `add` of {i: p}, with no cell for that part by itself.
ghost use Rattle.std.specs.Prelude.{◌≡◌, ◌+◌, ◌<◌};
ghost use Rattle.part.specs.PartReq.{none, more, contains, add, entries};
ghost use Rattle.part.specs.Store.{top, part, Good, Room, Made};

use crate::list::Entries;
use crate::req::{contains, join};
use crate::store::{ALL_PIECE, EMPTY_PIECE, EXIST_PIECE, look, make, remake};

// Whether m contains {i: p}.
pub fn contains_entry(cells: &[u32], m: u32, i: u32, p: u32) -> bool
    requires good { Good cells.now }
    requires m_bound { (m < top cells.now) × (p < top cells.now) }
    ensures { result ≡ contains (part cells.now m) (more i (part cells.now p) none) }
{
    let mut list = Entries::new(cells, m);
    let Some(x) = list.find(|x| i <= x.index) else {
        return list.rest == ALL_PIECE;
    };
    if i < x.index || x.rest == EXIST_PIECE {
        return false;
    }
    contains(cells, x.child, p)
}

// The sum of m and {i: p}.
fn join_entry(cells: &mut [u32], m: u32, i: u32, p: u32) -> u32
    requires good { Good cells.old }
    requires m_bound { (m < top cells.old) × (p < top cells.old) }
    requires room { Room cells.old (entries (part cells.old m) + entries (part cells.old p) + 1) }
    ensures { Made cells.old cells.new (add (part cells.old m) (more i (part cells.old p) none)) (entries (part cells.old m) + entries (part cells.old p) + 1) result }
{
    if m == ALL_PIECE {
        return ALL_PIECE;
    }
    if m <= EMPTY_PIECE {
        return make(cells, i, p, EMPTY_PIECE);
    }
    let x = look(cells, m);
    if i < x.index {
        return make(cells, i, p, m);
    }
    if x.index < i {
        let r = join_entry(cells, x.rest, i, p);
        return remake(cells, m, x, x.child, r);
    }
    let c = join(cells, x.child, p);
    let r = join(cells, x.rest, EMPTY_PIECE);
    remake(cells, m, x, c, r)
}

// The sum of m and {i: p}: m, where it contains that.
pub fn add_entry(cells: &mut [u32], m: u32, i: u32, p: u32) -> u32
    requires good { Good cells.old }
    requires m_bound { (m < top cells.old) × (p < top cells.old) }
    requires room { Room cells.old (entries (part cells.old m) + entries (part cells.old p) + 1) }
    ensures { Made cells.old cells.new (add (part cells.old m) (more i (part cells.old p) none)) (entries (part cells.old m) + entries (part cells.old p) + 1) result }
{
    if contains_entry(cells, m, i, p) {
        return m;
    }
    join_entry(cells, m, i, p)
}
