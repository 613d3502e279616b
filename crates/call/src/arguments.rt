// The arguments of a call, once the called function was walked.
ghost use Rattle.std.specs.Prelude.{◌<◌, length, Ok};
ghost use Rattle.module.specs.Tables.{module_of};
ghost use Rattle.access.specs.Access.{operand_at};
ghost use Rattle.walk.specs.Resolve.{function_at};
ghost use Rattle.call.specs.Calls.{Calling, Passable, Argued, AskedArguments};

use access::file::File;
use access::kinded::Kinded;
use memory::layout::{ASK, RETURNED};
use module::handles::ExpressionHandle;
use part::limits::SPINE;
use part::req::get;
use state::answer::{Tally, Walked};
use state::frame::Frame;
use statement::ask::then_ask;

// What is needed of the argument i, if anything is, is asked of the expression e, after a walk that went.
fn then_argument(
    file: &File,
    cells: &mut [u32],
    slots: &mut [u32],
    fr: Frame,
    tally: Tally,
    e: ExpressionHandle,
    i: u16,
) -> Walked
    requires passable { Passable file.now.bytes file.now.t cells.old slots.old fr (Ok tally) }
    requires e_in_bounds { e.0 < length (function_at (module_of file.now.bytes file.now.t) fr.function.0).expressions }
    ensures { Argued file.now.bytes file.now.t cells.old slots.old fr (Ok tally) e.0 i result cells.new slots.new }
{
    let needed = get(cells, slots[RETURNED], SPINE + (i as u32));
    match needed {
        None => Ok(tally),
        Some(p) => {
            slots[ASK] = p;
            then_ask(file, cells, slots, fr, Ok(tally), e, ASK)
        }
    }
}

// Each argument in turn. The slot ASK has what is asked of it.
pub fn ask_arguments(
    file: &File,
    cells: &mut [u32],
    slots: &mut [u32],
    fr: Frame,
    row: Kinded,
    began: Tally,
) -> Walked
    requires { Calling file.now.bytes file.now.t cells.old slots.old fr row began.sum }
    ensures { AskedArguments file.now.bytes file.now.t cells.old slots.old fr row began.visits (operand_at file.now.bytes row 1) result cells.new slots.new }
{
    let n = file.operand(row, 1);
    let mut tally = began;
    for i in 0..n {
        let e = file.expression_operand(row, 2 + i);
        tally = then_argument(file, cells, slots, fr, tally, e, i)?;
    }
    Ok(tally)
}
