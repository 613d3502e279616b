// `Atomic`: what is needed of its result and of its target is asked.
ghost use Rattle.std.specs.Prelude.{◌≡◌, ◌<◌, length};
ghost use Rattle.part.specs.Found.{Got};
ghost use Rattle.module.specs.Decode.{statement_of};
ghost use Rattle.access.specs.Access.{operand_at, handle_in};
ghost use Rattle.walk.specs.Statement.{record_of};
ghost use Rattle.memory.specs.Layout.{exprs_slot};
ghost use Rattle.memory.specs.Memory.{read};
ghost use Rattle.state.specs.State.{records_in};
ghost use Rattle.statement.specs.Leaf.{Arm, Leaves};
ghost use Rattle.statement.specs.Aside.{aside_field, aside_slots, Loading};

use crate::aim::target_of;
use crate::ask::{answer, then_maybe};
use access::file::File;
use access::kinded::Kinded;
use memory::layout::{ASK, EXPRS, RESULT};
use memory::want::kid;
use module::handles::ExpressionHandle;
use part::store::EMPTY_PIECE;
use state::answer::{Answered, Tally};
use state::frame::Frame;

// The record of a result, which may be absent.
pub fn record_of(
    file: &File,
    cells: &[u32],
    slots: &[u32],
    fr: Frame,
    res: Option<ExpressionHandle>,
) -> Option<u32>
    requires { Loading file.now.bytes file.now.t cells.now slots.now fr (handle_in res) }
    ensures { Got cells.now (record_of (records_in file.now.t exprs_slot fr.function.0 (read cells.now slots.now)) (handle_in res)) result }
{
    let e = res?;
    let f = fr.function;
    let number = file.expression_number(f, e);
    let n = slots[EXPRS + number];
    if n <= EMPTY_PIECE {
        return None;
    }
    Some(kid(cells, n))
}

// What was found is put into the slot k. The expression e, where it is to be asked.
fn put_aside(
    slots: &mut [u32],
    k: usize,
    found: Option<u32>,
    e: Option<ExpressionHandle>,
) -> Option<ExpressionHandle>
    requires { k < length slots.old }
    ensures { (handle_in result ≡ aside_field found (handle_in e)) × (slots.new ≡ aside_slots slots.old k found) }
{
    slots[k] = found?;
    e
}

pub fn add_atomic(
    file: &File,
    cells: &mut [u32],
    slots: &mut [u32],
    fr: Frame,
    row: Kinded,
    tally: Tally,
) -> Answered
    requires arm { Arm file.now.bytes file.now.t cells.old slots.old fr row tally.sum }
    requires kind_value { row.kind ≡ 13 }
    ensures { Leaves file.now.bytes file.now.t cells.old slots.old fr (statement_of row.kind (operand_at file.now.bytes row)) tally.visits result cells.new slots.new }
{
    let pointer = file.expression_operand(row, 0);
    let value = file.expression_operand(row, 1);
    let result = file.optional_expression(row, 2);
    let aim = target_of(file, cells, slots, fr, pointer)?;
    let load = record_of(file, cells, slots, fr, result);
    let first = put_aside(slots, RESULT, load, result);
    let second = put_aside(slots, ASK, aim.needed, Some(value));
    let required = load.is_some() || aim.needed.is_some();
    let a = then_maybe(file, cells, slots, fr, Ok(tally), first, RESULT);
    let b = then_maybe(file, cells, slots, fr, a, second, ASK);
    answer(b, required)
}
