// What decides how an expression uses its operands.
ghost use Rattle.std.specs.Prelude.{◌≡◌, ◌&&◌};
ghost use Rattle.module.specs.Tables.{module_of};
ghost use Rattle.context.specs.Types.{types_of};
ghost use Rattle.clearance.specs.Scope.{inner_of, is_vector, any_vector, by_part};
ghost use Rattle.judge.specs.Subject.{scope_of};
ghost use Rattle.operands.specs.Arms.{operands_of};
ghost use Rattle.operands.specs.Lists.{components};
ghost use Rattle.operands.specs.Rows.{scope_under, operands_in};

use crate::row::Operands;
use judge::expression::SubjectExpression;
use judge::rows::kind_at;
use judge::shapes::is_alike;
use judge::values::type_of;
use module::handles::ExpressionHandle;
use module::kinds::TypeKind;

// Whether a binary operator is by part: both operands have the result's type, a scalar or a vector.
pub fn by_part(expression: &SubjectExpression) -> bool
    requires kind_value { expression.now.row.kind ≡ 17 }
    ensures { result ≡ by_part (scope_of expression.now.subject.now) expression.now.e.0 (operands_of expression.now 0) (operands_of expression.now 1) }
{
    let subject = expression.subject;
    let own = subject.type_of(expression.e);
    match kind_at(subject.types, own) {
        TypeKind::Scalar | TypeKind::Vector => {}
        _ => return false,
    }
    let x = subject.file.expression_operand(expression.row, 0);
    let y = subject.file.expression_operand(expression.row, 1);
    let first = is_alike(subject.alike, subject.type_of(x), own);
    let second = is_alike(subject.alike, subject.type_of(y), own);
    first && second
}

// Whether a component is a vector.
fn any_vector(operands: &Operands, types: &[u32]) -> bool
    requires { (module_of operands.now.file.now.bytes operands.now.file.now.t).types ≡ types_of types.now }
    ensures { result ≡ any_vector (scope_under operands.now) (components (operands_in operands.now)) }
{
    let file = operands.file;
    for i in 0..file.operand(operands.row, 0) {
        let component = file.expression_operand(operands.row, 1 + i);
        if kind_at(types, type_of(file, operands.f, component)) == TypeKind::Vector {
            return true;
        }
    }
    false
}

// Whether the expression e is a vector with a vector among these components.
pub fn is_joined(operands: &Operands, types: &[u32], e: ExpressionHandle) -> bool
    requires { (module_of operands.now.file.now.bytes operands.now.file.now.t).types ≡ types_of types.now }
    ensures { result ≡ (is_vector (inner_of (scope_under operands.now) e.0) && any_vector (scope_under operands.now) (components (operands_in operands.now))) }
{
    let own = type_of(operands.file, operands.f, e);
    kind_at(types, own) == TypeKind::Vector && any_vector(operands, types)
}
