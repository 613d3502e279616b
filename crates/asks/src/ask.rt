// What the arm of an expression asks, by its kind.
ghost use Rattle.module.specs.Tables.{module_of};
ghost use Rattle.memory.specs.Memory.{Memory};
ghost use Rattle.memory.specs.Want.{Wants};
ghost use Rattle.asks.specs.Asks.{Only, There, Asks};

use crate::arms::{access_index, compose, constant, swizzle_ask};
use crate::fields::field_ask;
use crate::what::Ask;
use access::file::File;
use field::refusal::Refusal;
use memory::want::Want;
use module::handles::{ExpressionHandle, FunctionHandle};
use module::kinds::ExpressionKind;

// The j-th thing that an arm does, which does only `what`.
fn only(what: Ask, j: u32) -> Option<Ask>
    ensures { Only what j result }
{
    if j == 0 {
        return Some(what);
    }
    None
}

// The j-th thing that the arm of e does, where w is asked of it; none where it does no more. It is not inlined: the walk calls itself, and would hold
// what this works with on every level.
#[inline(never)]
pub fn ask(
    file: &File,
    cells: &[u32],
    slots: &[u32],
    f: FunctionHandle,
    e: ExpressionHandle,
    w: Want,
    j: u32,
) -> Option<Ask>
    requires there { There file.now.bytes file.now.t f.0 e.0 }
    requires memory { Memory cells.now slots.now × Wants cells.now slots.now w }
    ensures { Asks (module_of file.now.bytes file.now.t) f.0 e.0 cells.now slots.now w j result }
{
    let row = file.expression(f, e);
    match ExpressionKind::try_from(row.kind) {
        Ok(ExpressionKind::AccessIndex) => access_index(file, cells, slots, row, w, j),
        Ok(ExpressionKind::Constant) => constant(cells, slots, w, j),
        Ok(ExpressionKind::Swizzle) => swizzle_ask(file, cells, slots, row, w, j),
        Ok(ExpressionKind::Compose) => compose(file, cells, slots, row, w, j),
        Ok(ExpressionKind::FunctionArgument) => {
            only(Ask::Argument(file.operand(row, 0) as u32), j)
        }
        Ok(ExpressionKind::GlobalVariable) => only(Ask::Global(file.global_operand(row, 0)), j),
        Ok(ExpressionKind::LocalVariable) => only(Ask::Local(file.local_operand(row, 0)), j),
        Ok(ExpressionKind::RayQueryVertexPositions) => only(Ask::Refuse(Refusal::Panic), j),
        _ => field_ask(file, cells, slots, row, w, j),
    }
}
