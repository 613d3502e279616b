// The part of a need at a path, and a part put at one. A path has the outermost index first.
ghost use Rattle.std.specs.Prelude.{◌<◌, length};
ghost use Rattle.part.specs.Store.{top, part, Good, Room, Made};
ghost use Rattle.part.specs.Subparts.{Piece};
ghost use Rattle.clearance.specs.Shape.{below, under};

use part::store::{EMPTY_PIECE, make};
use part::subpart::subpart;

// What the need n asks of the part at the path.
pub fn below(cells: &[u32], n: u32, path: &[u32]) -> u32
    requires good { Good cells.now }
    requires n_bound { n < top cells.now }
    ensures { Piece cells.now (below (part cells.now n) path.now) result }
{
    let mut m = n;
    for i in path {
        m = subpart(cells, m, *i);
    }
    m
}

// The need of a at the path, and of nothing else.
pub fn under(cells: &mut [u32], path: &[u32], a: u32) -> u32
    requires good { Good cells.old }
    requires a_bound { (a < top cells.old) × Room cells.old (length path.now) }
    ensures { Made cells.old cells.new (under path.now (part cells.old a)) (length path.now) result }
{
    let mut m = a;
    // Stays: by number: what is around so far is the path from k on, and the entries of a path that is reversed carry no number.
    for k in (0..path.len()).rev() {
        m = make(cells, path[k], m, EMPTY_PIECE);
    }
    m
}
