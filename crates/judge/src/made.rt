// Expressions made of values: Splat, Swizzle, Compose.
ghost use Rattle.std.specs.Prelude.{◌≡◌, ◌&&◌, ◌||◌, ◌+◌, ◌<◌, ◌≤◌, ltb, eqb, length, get_or};
ghost use Rattle.module.specs.Module.{Opaque};
ghost use Rattle.module.specs.Decode.{tab};
ghost use Rattle.access.specs.Access.{operand_at};
ghost use Rattle.context.specs.Types.{types_of};
ghost use Rattle.clearance.specs.Scope.{inner, inner_of, is_scalar, is_vector};
ghost use Rattle.clearance.specs.Judged.{every, part_type, same_part, component_count, count_components};
ghost use Rattle.judge.specs.Subject.{scope_of, FitsOf};

use crate::expression::SubjectExpression;
use crate::rows::kind_at;
use crate::shapes::{is_vector_of, part_count};
use access::file::File;
use access::kinded::Kinded;
use bindings::types::first_word;
use module::handles::TypeHandle;
use module::kinds::{ExpressionKind, TypeKind};

// Whether each letter of a pattern is below n.
fn letters_below(file: &File, row: Kinded, n: u32) -> bool
    requires { operand_at file.now.bytes row 1 ≤ 4 }
    ensures { result ≡ every (λ i. ltb i n) (tab (operand_at file.now.bytes row 1) (λ i. operand_at file.now.bytes row (2 + i))) }
{
    let count = file.operand(row, 1);
    for i in 0..count {
        let letter = file.operand(row, 2 + i) as u32;
        if n <= letter {
            return false;
        }
    }
    true
}

// Letters of a vector that is a value, and a vector of as many.
fn fits_swizzle(expression: &SubjectExpression) -> bool
    requires kind_value { expression.now.row.kind ≡ 7 }
    ensures { FitsOf expression.now.subject.now expression.now.e.0 result }
{
    let subject = expression.subject;
    let vector = subject.file.expression_operand(expression.row, 0);
    let a = subject.type_of(vector);
    if kind_at(subject.types, a) != TypeKind::Vector {
        return false;
    }
    let letters = subject.file.operand(expression.row, 1) as u32;
    subject.is_value(vector)
        && letters_below(subject.file, expression.row, first_word(subject.types, a))
        && is_vector_of(subject.types, letters, subject.type_of(expression.e))
}

// How many components the type a gives: a scalar or a vector.
fn component_count(types: &[u32], a: TypeHandle) -> u32
    ensures { result ≡ component_count (get_or (types_of types.now) a.0 Opaque) }
{
    match kind_at(types, a) {
        TypeKind::Scalar => 1,
        TypeKind::Vector => first_word(types, a),
        _ => 0,
    }
}

// Whether the components are scalars and vectors, n components in all.
fn joins(expression: &SubjectExpression, n: u32) -> bool
    ensures { result ≡ (every (λ c. is_scalar (inner_of (scope_of expression.now.subject.now) c) || is_vector (inner_of (scope_of expression.now.subject.now) c)) (tab (operand_at expression.now.subject.now.file.now.bytes expression.now.row 0) (λ i. operand_at expression.now.subject.now.file.now.bytes expression.now.row (1 + i))) && eqb (count_components (scope_of expression.now.subject.now) (tab (operand_at expression.now.subject.now.file.now.bytes expression.now.row 0) (λ i. operand_at expression.now.subject.now.file.now.bytes expression.now.row (1 + i)))) n) }
{
    let subject = expression.subject;
    let count = subject.file.operand(expression.row, 0);
    let mut total: usize = 0;
    for i in 0..count {
        let a = subject.type_of(subject.file.expression_operand(expression.row, 1 + i));
        match kind_at(subject.types, a) {
            TypeKind::Scalar | TypeKind::Vector => {}
            _ => return false,
        }
        total += component_count(subject.types, a) as usize;
    }
    total == (n as usize)
}

// Whether each component is of the shape of the type a's part of its number.
fn parts_fit(expression: &SubjectExpression, a: TypeHandle) -> bool
    requires kind_value { expression.now.row.kind ≡ 8 }
    requires a_in_bounds { a.0 < length (types_of expression.now.subject.now.types.now) }
    ensures { result ≡ every (λ i. same_part (scope_of expression.now.subject.now) (part_type (scope_of expression.now.subject.now) (inner (scope_of expression.now.subject.now) a.0) i) (inner_of (scope_of expression.now.subject.now) (operand_at expression.now.subject.now.file.now.bytes expression.now.row (1 + i)))) (tab (operand_at expression.now.subject.now.file.now.bytes expression.now.row 0) (λ i. i)) }
{
    let subject = expression.subject;
    let count = subject.file.operand(expression.row, 0);
    for i in 0..count {
        let b = subject.type_of(subject.file.expression_operand(expression.row, 1 + i));
        if !subject.same_part(a, i as u32, b) {
            return false;
        }
    }
    true
}

// A value of its components: a vector of scalars and vectors, or a matrix, an array or a struct of its parts.
fn fits_compose(expression: &SubjectExpression) -> bool
    requires kind_value { expression.now.row.kind ≡ 8 }
    ensures { FitsOf expression.now.subject.now expression.now.e.0 result }
{
    let subject = expression.subject;
    let values = subject.all_values(expression.row);
    let a = subject.type_of(expression.e);
    match kind_at(subject.types, a) {
        TypeKind::Vector => values && joins(expression, first_word(subject.types, a)),
        TypeKind::Matrix | TypeKind::Array | TypeKind::Struct => {
            values
                && part_count(subject.types, a) == subject.file.operand(expression.row, 0) as u32
                && parts_fit(expression, a)
        }
        _ => false,
    }
}

// A vector of one scalar, letters of a vector, or components.
pub fn fits_made(expression: &SubjectExpression) -> bool
    requires le_kind { 6 ≤ expression.now.row.kind }
    requires kind_bound { expression.now.row.kind ≤ 8 }
    ensures { FitsOf expression.now.subject.now expression.now.e.0 result }
{
    let subject = expression.subject;
    match ExpressionKind::try_from(expression.row.kind) {
        Ok(ExpressionKind::Swizzle) => fits_swizzle(expression),
        Ok(ExpressionKind::Splat) => {
            let value = subject.file.expression_operand(expression.row, 0);
            let a = subject.type_of(value);
            let b = subject.type_of(expression.e);
            subject.is_value(value)
                && kind_at(subject.types, a) == TypeKind::Scalar
                && kind_at(subject.types, b) == TypeKind::Vector
        }
        _ => fits_compose(expression),
    }
}
