// Operators: their operands are values, and some have the result's shape.
ghost use Rattle.std.specs.Prelude.{◌≡◌, ◌≤◌};
ghost use Rattle.judge.specs.Subject.{FitsOf};

use crate::expression::SubjectExpression;
use crate::shapes::is_alike;
use module::kinds::ExpressionKind;

// A value of two, by a condition: both have the result's shape.
fn fits_select(expression: &SubjectExpression) -> bool
    requires kind_value { expression.now.row.kind ≡ 18 }
    ensures { FitsOf expression.now.subject.now expression.now.e.0 result }
{
    let subject = expression.subject;
    let condition = subject.file.expression_operand(expression.row, 0);
    let accept = subject.file.expression_operand(expression.row, 1);
    let reject = subject.file.expression_operand(expression.row, 2);
    let own = subject.type_of(expression.e);
    subject.is_value(expression.e)
        && subject.is_value(condition)
        && subject.is_value(accept)
        && subject.is_value(reject)
        && is_alike(subject.alike, subject.type_of(accept), own)
        && is_alike(subject.alike, subject.type_of(reject), own)
}

// One value to four.
fn fits_math(expression: &SubjectExpression) -> bool
    requires kind_value { expression.now.row.kind ≡ 21 }
    ensures { FitsOf expression.now.subject.now expression.now.e.0 result }
{
    let subject = expression.subject;
    let x = subject.file.expression_operand(expression.row, 0);
    let y = subject.file.optional_expression(expression.row, 1);
    let z = subject.file.optional_expression(expression.row, 2);
    let w = subject.file.optional_expression(expression.row, 3);
    subject.is_value(expression.e)
        && subject.is_value(x)
        && subject.maybe_value(y)
        && subject.maybe_value(z)
        && subject.maybe_value(w)
}

// An operator; a derivative is never judged.
pub fn fits_operator(expression: &SubjectExpression) -> bool
    requires le_kind { 16 ≤ expression.now.row.kind }
    requires kind_bound { expression.now.row.kind ≤ 22 }
    ensures { FitsOf expression.now.subject.now expression.now.e.0 result }
{
    let subject = expression.subject;
    let x = subject.file.expression_operand(expression.row, 0);
    match ExpressionKind::try_from(expression.row.kind) {
        Ok(ExpressionKind::Select) => fits_select(expression),
        Ok(ExpressionKind::Math) => fits_math(expression),
        Ok(ExpressionKind::Relational) => { subject.is_value(expression.e) && subject.is_value(x) }
        Ok(ExpressionKind::Binary) => {
            let y = subject.file.expression_operand(expression.row, 1);
            subject.is_value(expression.e) && subject.is_value(x) && subject.is_value(y)
        }
        Ok(ExpressionKind::Unary | ExpressionKind::As) => {
            subject.is_value(expression.e)
                && subject.is_value(x)
                && is_alike(
                    subject.alike,
                    subject.type_of(x),
                    subject.type_of(expression.e),
                )
        }
        _ => false,
    }
}
