// Indexes: of a path what it leads to is indexed, of a value the value.
ghost use Rattle.std.specs.Prelude.{◌≡◌, ◌<◌, ◌≤◌, length};
ghost use Rattle.context.specs.Types.{types_of};
ghost use Rattle.clearance.specs.Scope.{inner};
ghost use Rattle.clearance.specs.Judged.{same_part};
ghost use Rattle.judge.specs.Shapes.{InTypes, indexed};
ghost use Rattle.judge.specs.Given.{fits_base};
ghost use Rattle.judge.specs.Subject.{scope_of, FitsOf};

use crate::expression::SubjectExpression;
use crate::subject::Subject;
use module::handles::TypeHandle;
use module::kinds::ExpressionKind;

impl<'a> Subject<'a> {
    // Whether an index of the type a is of b's shape: a dynamic one, or the constant i.
    fn same_index(&self, kind: u16, a: TypeHandle, i: u32, b: TypeHandle) -> bool
        requires a_in_bounds { a.0 < length (types_of self.now.types.now) }
        requires b_in_bounds { b.0 < length (types_of self.now.types.now) }
        ensures { InTypes self.now.types.now (λ S. same_part S (indexed S kind i (inner S a.0)) (inner S b.0)) result }
    {
        match ExpressionKind::try_from(kind) {
            Ok(ExpressionKind::Access) => self.same_element(a, b),
            _ => self.same_part(a, i, b),
        }
    }
}

// Whether the index e of its base fits, by the kind of its row.
fn fits_base(expression: &SubjectExpression) -> bool
    requires le_kind { 3 ≤ expression.now.row.kind }
    requires kind_bound { expression.now.row.kind ≤ 4 }
    ensures { result ≡ fits_base (scope_of expression.now.subject.now) expression.now.subject.now.file.now.bytes expression.now.row expression.now.e.0 }
{
    let subject = expression.subject;
    let base = subject.file.expression_operand(expression.row, 0);
    let i = subject.file.operand(expression.row, 1) as u32;
    let a = subject.type_of(base);
    let b = subject.type_of(expression.e);
    if subject.is_path(base) {
        return subject.same_index(
            expression.row.kind,
            subject.pointee(a),
            i,
            subject.pointee(b),
        );
    }
    subject.is_value(base)
        && subject.is_value(expression.e)
        && subject.same_index(expression.row.kind, a, i, b)
}

// A constant index, or one by an expression, which is a value.
pub fn fits_index(expression: &SubjectExpression) -> bool
    requires le_kind { 3 ≤ expression.now.row.kind }
    requires kind_bound { expression.now.row.kind ≤ 4 }
    ensures { FitsOf expression.now.subject.now expression.now.e.0 result }
{
    let subject = expression.subject;
    let fits = fits_base(expression);
    match ExpressionKind::try_from(expression.row.kind) {
        Ok(ExpressionKind::Access) => {
            let index = subject.file.expression_operand(expression.row, 1);
            subject.is_value(index) && fits
        }
        _ => fits,
    }
}
