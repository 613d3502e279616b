// How an If ends, once its two blocks are walked.
ghost use Rattle.std.specs.Prelude.{◌<◌, length};
ghost use Rattle.module.specs.Tables.{module_of};
ghost use Rattle.walk.specs.Resolve.{function_at};
ghost use Rattle.arms.specs.Ifs.{IfAsked, IfEnds};

use access::file::File;
use block::branches::{drop_both, join_up};
use expression::add::add_expression;
use expression::visit::Visit;
use field::refusal::Refusal;
use memory::layout::ALL;
use memory::want::want_of;
use module::handles::ExpressionHandle;
use state::answer::{Answer, Answered, Tally};
use state::frame::Frame;
use statement::ask::answer;

// Where either block is required, their contexts are joined in the place of the current one, and the condition is asked; else they are forgotten.
pub fn end_if(
    file: &File,
    cells: &mut [u32],
    slots: &mut [u32],
    fr: Frame,
    condition: ExpressionHandle,
    required: bool,
    tally: Tally,
) -> Answered
    requires if_asked { IfAsked file.now.bytes file.now.t cells.old slots.old fr tally.sum tally.visits }
    requires condition_in_bounds { condition.0 < length (function_at (module_of file.now.bytes file.now.t) fr.function.0).expressions }
    ensures { IfEnds file.now.bytes file.now.t cells.old slots.old fr condition.0 required tally.sum tally.visits result cells.new slots.new }
{
    let at = fr.at;
    if !required {
        drop_both(slots, at);
        return Ok(Answer {
            tally,
            required: false,
        });
    }
    join_up(cells, slots, at).ok_or(fr.halt(Refusal::PartLimit))?;
    let v = Visit {
        function: fr.function,
        expression: condition,
        at,
        held: fr.held,
    };
    let w = want_of(ALL);
    let r = add_expression(file, cells, slots, &v, w, tally);
    answer(r, true)
}
