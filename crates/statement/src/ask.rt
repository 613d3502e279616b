// Asks, one after the other: each goes on where the walk so far went.
ghost use Rattle.std.specs.Prelude.{◌≡◌, ◌<◌, ◌≤◌, length};
ghost use Rattle.module.specs.Tables.{module_of};
ghost use Rattle.access.specs.Access.{handle_in};
ghost use Rattle.valid.specs.Valid.{MaybeBelow};
ghost use Rattle.walk.specs.Resolve.{function_at};
ghost use Rattle.walk.specs.Expression.{add_expression};
ghost use Rattle.memory.specs.Layout.{returned};
ghost use Rattle.statement.specs.Asks.{Open, Asked, maybe_ask, answer_of};

use access::file::File;
use expression::add::add_expression;
use expression::visit::Visit;
use memory::want::want_of;
use module::handles::ExpressionHandle;
use state::answer::{Answer, Answered, Walked};
use state::frame::Frame;

// The part of the slot k is asked of the expression e, where the walk so far went.
pub fn then_ask(
    file: &File,
    cells: &mut [u32],
    slots: &mut [u32],
    fr: Frame,
    before: Walked,
    e: ExpressionHandle,
    k: usize,
) -> Walked
    requires fact { Open file.now.bytes file.now.t cells.old slots.old fr before }
    requires e_in_bounds { (e.0 < length (function_at (module_of file.now.bytes file.now.t) fr.function.0).expressions) × (k ≤ returned) }
    ensures { Asked file.now.bytes file.now.t cells.old slots.old fr before (add_expression (module_of file.now.bytes file.now.t) fr.function.0 fr.held e.0) k result cells.new slots.new }
{
    let tally = before?;
    let v = Visit {
        function: fr.function,
        expression: e,
        at: fr.at,
        held: fr.held,
    };
    let w = want_of(k);
    add_expression(file, cells, slots, &v, w, tally)
}

// The same of an expression that may be absent.
pub fn then_maybe(
    file: &File,
    cells: &mut [u32],
    slots: &mut [u32],
    fr: Frame,
    before: Walked,
    e: Option<ExpressionHandle>,
    k: usize,
) -> Walked
    requires fact { Open file.now.bytes file.now.t cells.old slots.old fr before }
    requires maybe_below { MaybeBelow (length (function_at (module_of file.now.bytes file.now.t) fr.function.0).expressions) (handle_in e) × (k ≤ returned) }
    ensures { Asked file.now.bytes file.now.t cells.old slots.old fr before (maybe_ask (module_of file.now.bytes file.now.t) fr.function.0 fr.held (handle_in e)) k result cells.new slots.new }
{
    match e {
        None => before,
        Some(there) => then_ask(file, cells, slots, fr, before, there, k),
    }
}

// The walk with the answer b, where it went.
pub fn answer(walked: Walked, b: bool) -> Answered
    ensures { result ≡ answer_of walked b }
{
    let tally = walked?;
    Ok(Answer { tally, required: b })
}
