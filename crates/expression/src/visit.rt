// How a visit begins and how it ends.
ghost use Rattle.std.specs.Prelude.{◌≡◌, List, ℕ};
ghost use Rattle.std.specs.Option.{is_some};
ghost use Rattle.memory.specs.Want.{asked};
ghost use Rattle.state.specs.Ready.{Ready};
ghost use Rattle.state.specs.declared.answer.Place.TheVariants.{Expression};
ghost use Rattle.expression.specs.Walks.{Walks, closing};
ghost use Rattle.expression.specs.Visits.{Counting, Allowed, Closing};

use access::file::File;
use field::limits::MAX_PIECES;
use field::refusal::Refusal;
use memory::layout::EXPRS;
use memory::memory::{note, tidy, weigh};
use memory::want::Want;
use module::handles::{ExpressionHandle, FunctionHandle};
use state::answer::{Halt, Place, Tally, Walked};

// The expression of the open function that is visited; the slots of the current context, and what frames hold beside that.
// Stays: what is asked of it goes beside it. As a field it is copied for ask, ask_global and note: a level of add_expression took 624 bytes for 416.
#[derive(Clone, Copy)]
pub struct Visit {
    pub function: FunctionHandle,
    pub expression: ExpressionHandle,
    pub at: usize,
    pub held: usize,
}

impl Visit {
    // A refusal of the expression.
    pub fn halt(&self, refusal: Refusal) -> Halt
        ensures { result ≡ record { refusal = refusal; place = Expression self.now.function self.now.expression } }
    {
        Halt {
            refusal,
            place: Place::Expression(self.function, self.expression),
        }
    }
}

// None where 16 does not allow what is held, with the context in the slots from `at` on. Where it does, there is room for a visit then.
pub fn allowed(
    cells: &mut [u32],
    slots: &mut [u32],
    at: usize,
    held: usize,
    sum: usize,
) -> Option<()>
    requires { Counting cells.old slots.old at held sum }
    ensures { Allowed cells.old slots.old at held sum (is_some result) cells.new slots.new }
{
    let pieces = weigh(cells, slots, at, 4);
    if MAX_PIECES < held + (pieces + sum) {
        return None;
    }
    tidy(cells, slots);
    Some(())
}

// The visit ends: the record, 16, and room for the next visit.
pub fn close(
    file: &File,
    cells: &mut [u32],
    slots: &mut [u32],
    v: &Visit,
    w: Want,
    tally: Tally,
) -> Walked
    requires { Closing file.now.t v.now.function.0 v.now.expression.0 v.now.at v.now.held cells.old slots.old w tally.sum }
    ensures { (bytes : List ℕ) → Ready bytes file.now.t cells.old slots.old v.now.function.0 v.now.at v.now.held tally.sum → Walks bytes file.now.t v.now.function.0 v.now.at v.now.held cells.old slots.old (closing v.now.function.0 v.now.held v.now.expression.0 (asked cells.old slots.old w)) tally.visits result cells.new slots.new }
{
    let number = file.expression_number(v.function, v.expression);
    let sum = note(cells, slots, EXPRS + number, w, tally.sum);
    allowed(cells, slots, v.at, v.held, sum).ok_or(v.halt(Refusal::PiecesLimit))?;
    Ok(Tally { sum, ..tally })
}
