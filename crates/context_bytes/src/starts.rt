// Whether what is needed at the start is in the input context.
// Stays: a piece is its number, with no type of its own: cells and slots hold it as a word, and laws over them would carry a projection.
ghost use Rattle.std.specs.Prelude.{◌≡◌, ◌<◌};
ghost use Rattle.part.specs.Store.{top, part, Good};
ghost use Rattle.clearance.specs.Verdict.{needs_expression};
ghost use Rattle.request.specs.Fields.{fields};
ghost use Rattle.context_bytes.specs.Covered.{lists_cover, CoversContext};

use crate::check::{is_context, skip_return};
use crate::cover::covers_variables;
use part::limits::SPINE;
use part::list::Entries;
use part::store::ALL_PIECE;
use part::subpart::subpart;

// Whether an evaluated expression is needed.
fn needs_expression(cells: &[u32], n: u32) -> bool
    requires good { Good cells.now }
    requires n_bound { n < top cells.now }
    ensures { result ≡ needs_expression (part cells.now n) }
{
    let mut list = Entries::new(cells, n);
    list.any(|x| SPINE + 3 < x.index) || list.rest == ALL_PIECE
}

// Whether the list that the bytes begin with has what g asks, and the one after it what a asks.
fn lists_cover(cells: &[u32], g: u32, a: u32, bytes: &[u8]) -> bool
    requires good { Good cells.now }
    requires g_bound { (g < top cells.now) × (a < top cells.now) }
    ensures { result ≡ lists_cover (part cells.now g) (part cells.now a) (fields bytes.now) }
{
    let Some(args) = covers_variables(cells, g, bytes) else {
        return false;
    };
    covers_variables(cells, a, args).is_some()
}

// Whether the context has what the need n asks of globals and arguments, and n asks for no evaluated expression.
pub fn context_covers(cells: &[u32], n: u32, context: &[u8]) -> bool
    requires good { Good cells.now }
    requires n_bound { n < top cells.now }
    ensures { CoversContext cells.now n context.now result }
{
    if needs_expression(cells, n) {
        return false;
    }
    if !is_context(context) {
        return false;
    }
    let Some(lists) = skip_return(&context[6..]) else {
        return false;
    };
    let g = subpart(cells, n, SPINE);
    let a = subpart(cells, n, SPINE + 2);
    lists_cover(cells, g, a, lists)
}
