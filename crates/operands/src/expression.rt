// What the need of an emitted expression asks of its operands, by the expression's kind.
ghost use Rattle.std.specs.Prelude.{◌≡◌};
ghost use Rattle.operands.specs.Arms.{OperandsGivenOf, ArmGivenOf, AsksOperands, PathRoom};
ghost use Rattle.hold.specs.Fits.{fits};

use crate::indexes::ask_index;
use crate::load::ask_load;
use crate::made::{ask_components, ask_joined, ask_letters};
use crate::operators::{ask_both_same, ask_both_whole, ask_math, ask_same, ask_select, ask_whole};
use crate::row::Operands;
use crate::tests::{by_part, is_joined};
use judge::expression::SubjectExpression;
use judge::subject::Subject;
use module::handles::ExpressionHandle;
use module::kinds::ExpressionKind;
use place::pointer::PointerExpression;

// Both operands, by part or whole.
fn ask_binary(
    expression: &SubjectExpression,
    cells: &mut [u32],
    slots: &mut [u32],
    n: usize,
) -> Option<()>
    requires arm_given { ArmGivenOf expression.now cells.old slots.old n }
    requires kind_value { expression.now.row.kind ≡ 17 }
    ensures { AsksOperands expression.now.subject.now.file.now.bytes expression.now.subject.now.file.now.t expression.now.subject.now.f.0 expression.now.e.0 cells.old slots.old n cells.new slots.new (fits result) }
{
    let operands = Operands {
        file: expression.subject.file,
        f: expression.subject.f,
        row: expression.row,
    };
    if by_part(expression) {
        return ask_both_same(&operands, cells, slots, n);
    }
    ask_both_whole(&operands, cells, slots, n)
}

// The components, by part or whole.
fn ask_compose(
    expression: &SubjectExpression,
    cells: &mut [u32],
    slots: &mut [u32],
    n: usize,
) -> Option<()>
    requires arm_given { ArmGivenOf expression.now cells.old slots.old n }
    requires kind_value { expression.now.row.kind ≡ 8 }
    ensures { AsksOperands expression.now.subject.now.file.now.bytes expression.now.subject.now.file.now.t expression.now.subject.now.f.0 expression.now.e.0 cells.old slots.old n cells.new slots.new (fits result) }
{
    let subject = expression.subject;
    let operands = Operands {
        file: subject.file,
        f: subject.f,
        row: expression.row,
    };
    if is_joined(&operands, subject.types, expression.e) {
        return ask_joined(&operands, cells, slots, n);
    }
    ask_components(&operands, cells, slots, n)
}

// What the need of the expression e asks of its operands. None where the needs pass the bound.
pub fn ask_operands(
    subject: &Subject,
    cells: &mut [u32],
    slots: &mut [u32],
    path: &mut [u32],
    n: usize,
    e: ExpressionHandle,
) -> Option<()>
    requires operands_given { OperandsGivenOf subject.now cells.old slots.old n e.0 }
    requires path_room { PathRoom subject.now.file.now.bytes subject.now.file.now.t subject.now.f.0 path.old }
    ensures { AsksOperands subject.now.file.now.bytes subject.now.file.now.t subject.now.f.0 e.0 cells.old slots.old n cells.new slots.new (fits result) }
{
    let row = subject.file.expression(subject.f, e);
    let expression = SubjectExpression {
        subject: &*subject,
        row,
        e,
    };
    let operands = Operands {
        file: subject.file,
        f: subject.f,
        row,
    };
    match ExpressionKind::try_from(row.kind) {
        Ok(ExpressionKind::AccessIndex) => ask_index(&operands, cells, slots, n),
        Ok(ExpressionKind::Access) => ask_both_whole(&operands, cells, slots, n),
        Ok(ExpressionKind::Splat | ExpressionKind::Relational) => {
            ask_whole(&operands, cells, slots, n, 0)
        }
        Ok(ExpressionKind::Swizzle) => ask_letters(&operands, cells, slots, n),
        Ok(ExpressionKind::Compose) => ask_compose(&expression, cells, slots, n),
        Ok(ExpressionKind::Load) => {
            let pointer = PointerExpression {
                file: subject.file,
                f: subject.f,
                e: subject.file.expression_operand(row, 0),
            };
            ask_load(&pointer, cells, slots, path, n)
        }
        Ok(ExpressionKind::Binary) => ask_binary(&expression, cells, slots, n),
        Ok(ExpressionKind::Select) => ask_select(&operands, cells, slots, n),
        Ok(ExpressionKind::Math) => ask_math(&operands, cells, slots, n),
        // The two kinds that are left, Unary and As.
        _ => ask_same(&operands, cells, slots, n, 0),
    }
}
