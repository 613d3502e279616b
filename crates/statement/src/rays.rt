// `RayQuery`, `WorkGroupUniformLoad`, `SubgroupBallot`, `SubgroupGather` and `SubgroupCollectiveOperation`: they are required where anything is needed of
// their target.
ghost use Rattle.std.specs.Prelude.{◌≡◌};
ghost use Rattle.module.specs.Decode.{statement_of};
ghost use Rattle.access.specs.Access.{operand_at};
ghost use Rattle.statement.specs.Leaf.{Arm, Leaves};
ghost use Rattle.statement.specs.Rays.{RayKind, ray_of, gather_fields, ray_fields};

use crate::aim::target_of;
use crate::ask::{answer, then_maybe};
use access::file::File;
use access::kinded::Kinded;
use memory::layout::ALL;
use module::handles::ExpressionHandle;
use module::kinds::StatementKind;
use state::answer::{Answered, Tally};
use state::frame::Frame;

// The mode of a gather that names an expression.
const BROADCAST: u16 = 1;

// The target, and what is asked of where it is needed, absent where a kind has no such field.
#[derive(Clone, Copy)]
pub struct Ray {
    pub target: ExpressionHandle,
    pub first: Option<ExpressionHandle>,
    pub second: Option<ExpressionHandle>,
}

// Those of a gather: a mode that names an expression has it before the argument.
fn gather_fields(file: &File, row: Kinded) -> Ray
    ensures { ray_of result ≡ gather_fields (operand_at file.now.bytes row 0) (operand_at file.now.bytes row) }
{
    let mode = file.operand(row, 0);
    let first = file.expression_operand(row, 1);
    let second = file.expression_operand(row, 2);
    if mode == BROADCAST {
        return Ray {
            target: file.expression_operand(row, 3),
            first: Some(first),
            second: Some(second),
        };
    }
    Ray {
        target: second,
        first: None,
        second: Some(first),
    }
}

fn ray_fields(file: &File, row: Kinded) -> Ray
    ensures { ray_of result ≡ ray_fields row.kind (operand_at file.now.bytes row) }
{
    let a = file.expression_operand(row, 0);
    match StatementKind::try_from(row.kind) {
        Ok(StatementKind::RayQuery) => Ray {
            target: a,
            first: None,
            second: None,
        },
        Ok(StatementKind::SubgroupBallot) => Ray {
            target: a,
            first: file.optional_expression(row, 1),
            second: None,
        },
        Ok(StatementKind::SubgroupGather) => gather_fields(file, row),
        _ => Ray {
            target: file.expression_operand(row, 1),
            first: Some(a),
            second: None,
        },
    }
}

pub fn add_ray(
    file: &File,
    cells: &mut [u32],
    slots: &mut [u32],
    fr: Frame,
    row: Kinded,
    tally: Tally,
) -> Answered
    requires arm { Arm file.now.bytes file.now.t cells.old slots.old fr row tally.sum }
    requires ray_kind { RayKind row.kind }
    ensures { Leaves file.now.bytes file.now.t cells.old slots.old fr (statement_of row.kind (operand_at file.now.bytes row)) tally.visits result cells.new slots.new }
{
    let x = ray_fields(file, row);
    let aim = target_of(file, cells, slots, fr, x.target)?;
    match aim.needed {
        None => answer(Ok(tally), false),
        Some(p) => {
            let a = then_maybe(file, cells, slots, fr, Ok(tally), x.first, ALL);
            let b = then_maybe(file, cells, slots, fr, a, x.second, ALL);
            answer(b, true)
        }
    }
}
