// The entry of a piece's list, where one that is not there asks for nothing.
ghost use Rattle.std.specs.Prelude.{◌<◌};
ghost use Rattle.part.specs.PartReq.{get_subpart};
ghost use Rattle.part.specs.Store.{top, part, Good};
ghost use Rattle.part.specs.Subparts.{or_none, Piece};

use crate::req::get;
use crate::store::EMPTY_PIECE;

// The subpart j of a, or the empty part.
pub fn subpart(cells: &[u32], a: u32, j: u32) -> u32
    requires good { Good cells.now }
    requires a_bound { a < top cells.now }
    ensures { Piece cells.now (or_none (get_subpart (part cells.now a) j)) result }
{
    get(cells, a, j).unwrap_or(EMPTY_PIECE)
}
