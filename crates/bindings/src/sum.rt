// The sizes of a sum that is not made: of its two pieces one may be shared, and mean far more entries than it has cells.
ghost use Rattle.std.specs.Prelude.{◌<◌};
ghost use Rattle.part.specs.PartReq.{add};
ghost use Rattle.part.specs.Store.{top, part, Measures, Good};

use part::req::join_plain;
use part::store::{EMPTY_PIECE, Sizes, look, measure, sizes_of};

// It goes along both lists at once, and calls itself where both have an entry.
pub fn sum_sizes(cells: &[u32], a: u32, b: u32) -> Sizes
    requires good { Good cells.now }
    requires a_bound { (a < top cells.now) × (b < top cells.now) }
    ensures { Measures (add (part cells.now a) (part cells.now b)) result.entries result.depth result.width result.over }
{
    if a == b {
        return measure(cells, a);
    }
    if a <= EMPTY_PIECE {
        return measure(cells, join_plain(a, b));
    }
    if b <= EMPTY_PIECE {
        return measure(cells, join_plain(b, a));
    }
    let x = look(cells, a);
    let y = look(cells, b);
    if x.index < y.index {
        let p = measure(cells, x.child);
        return sizes_of(x.index, p, sum_sizes(cells, x.rest, b));
    }
    if y.index < x.index {
        let p = measure(cells, y.child);
        return sizes_of(y.index, p, sum_sizes(cells, a, y.rest));
    }
    let p = sum_sizes(cells, x.child, y.child);
    sizes_of(x.index, p, sum_sizes(cells, x.rest, y.rest))
}
