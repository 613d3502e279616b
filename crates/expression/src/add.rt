// The walk of an expression.
ghost use Rattle.std.specs.Prelude.{◌<◌, length};
ghost use Rattle.module.specs.Tables.{module_of};
ghost use Rattle.walk.specs.Resolve.{function_at};
ghost use Rattle.walk.specs.Expression.{add_expression};
ghost use Rattle.memory.specs.Want.{asked, Wants};
ghost use Rattle.state.specs.Ready.{Ready};
ghost use Rattle.expression.specs.Walks.{Walks};

use crate::variables::{entry, global};
use crate::visit::{Visit, allowed, close};
use access::file::File;
use asks::ask::ask;
use asks::what::Ask;
use field::limits::MAX_VISITS;
use field::refusal::Refusal;
use memory::want::Want;
use state::answer::{Tally, Walked};

// Stays: numbers of their own. These are slots behind a context's first one; judge's, spelled alike, are entries of a frame's part in the clearance, which
// has maps for evaluated expressions behind them, and of which the walk knows nothing.
// The places of a context's maps.
const LOCALS: usize = 1;

const ARGUMENTS: usize = 2;

// `add_expression`: the visit v, of which w is asked, and before it ends those of the operands.
pub fn add_expression(
    file: &File,
    cells: &mut [u32],
    slots: &mut [u32],
    v: &Visit,
    w: Want,
    began: Tally,
) -> Walked
    requires ready { Ready file.now.bytes file.now.t cells.old slots.old v.now.function.0 v.now.at v.now.held began.sum }
    requires e_in_bounds { v.now.expression.0 < length (function_at (module_of file.now.bytes file.now.t) v.now.function.0).expressions }
    requires wants { Wants cells.old slots.old w }
    ensures { Walks file.now.bytes file.now.t v.now.function.0 v.now.at v.now.held cells.old slots.old (add_expression (module_of file.now.bytes file.now.t) v.now.function.0 v.now.held v.now.expression.0 (asked cells.old slots.old w)) began.visits result cells.new slots.new }
{
    if MAX_VISITS <= began.visits {
        return Err(v.halt(Refusal::VisitsLimit));
    }
    allowed(cells, slots, v.at, v.held, began.sum).ok_or(v.halt(Refusal::PiecesLimit))?;
    let mut tally = Tally {
        visits: began.visits + 1,
        ..began
    };
    let mut j = 0;
    // Stays: `ask` ends it, and no count. `for j in 0..` saves the two lines that count, and takes a `let Some(a) = .. else { break; };` of three.
    while let Some(a) = ask(file, cells, slots, v.function, v.expression, w, j) {
        match a {
            Ask::Operand(h, want) => {
                let operand = Visit {
                    expression: h,
                    ..*v
                };
                tally = add_expression(file, cells, slots, &operand, want, tally)?;
            }
            Ask::Argument(i) => return entry(file, cells, slots, v, ARGUMENTS, i, w, tally),
            Ask::Global(g) => return global(file, cells, slots, v, g, w, tally),
            Ask::Local(l) => return entry(file, cells, slots, v, LOCALS, l.0, w, tally),
            Ask::Refuse(refusal) => return Err(v.halt(refusal)),
        }
        j += 1;
    }
    close(file, cells, slots, v, w, tally)
}
