// Expressions that name an argument or a variable, and loads.
ghost use Rattle.std.specs.Prelude.{◌≡◌, not, ◌&&◌, ◌<◌, ◌≤◌, length};
ghost use Rattle.context.specs.Types.{types_of};
ghost use Rattle.clearance.specs.Scope.{inner, inner_of, is_path, is_pointer};
ghost use Rattle.clearance.specs.Judged.{pointee, pointee_type, same};
ghost use Rattle.judge.specs.Shapes.{InTypes};
ghost use Rattle.judge.specs.Subject.{scope_of, function_in, FitsOf};

use crate::expression::SubjectExpression;
use crate::rows::kind_at;
use crate::shapes::is_alike;
use crate::subject::Subject;
use module::handles::{ExpressionHandle, TypeHandle};
use module::kinds::{ExpressionKind, TypeKind};

impl<'a> Subject<'a> {
    // Whether a variable of the type a, which is no pointer, is of the shape that the type b leads to.
    fn fits_variable(&self, a: TypeHandle, b: TypeHandle) -> bool
        requires a_in_bounds { a.0 < length (types_of self.now.types.now) }
        requires b_in_bounds { b.0 < length (types_of self.now.types.now) }
        ensures { InTypes self.now.types.now (λ S. not (is_pointer (inner S a.0)) && same S (inner S a.0) (pointee_type S (inner S b.0))) result }
    {
        kind_at(self.types, a) != TypeKind::Pointer && is_alike(self.alike, a, self.pointee(b))
    }

    // Whether p is a path that leads to what has v's shape.
    pub fn leads_to(&self, p: ExpressionHandle, v: ExpressionHandle) -> bool
        requires p_in_bounds { p.0 < length (function_in self.now).expressions }
        requires v_in_bounds { v.0 < length (function_in self.now).expressions }
        ensures { result ≡ (is_path (scope_of self.now) p.0 && same (scope_of self.now) (pointee (scope_of self.now) p.0) (inner_of (scope_of self.now) v.0)) }
    {
        let led = self.pointee(self.type_of(p));
        self.is_path(p) && is_alike(self.alike, led, self.type_of(v))
    }
}

// An argument, a global, a local or a load.
pub fn fits_named(expression: &SubjectExpression) -> bool
    requires le_kind { 9 ≤ expression.now.row.kind }
    requires kind_bound { expression.now.row.kind ≤ 12 }
    ensures { FitsOf expression.now.subject.now expression.now.e.0 result }
{
    let subject = expression.subject;
    let own = subject.type_of(expression.e);
    match ExpressionKind::try_from(expression.row.kind) {
        Ok(ExpressionKind::GlobalVariable) => {
            let a = subject
                .file
                .global(subject.file.global_operand(expression.row, 0));
            subject.fits_variable(a, own)
        }
        Ok(ExpressionKind::LocalVariable) => {
            let a = subject
                .file
                .local(subject.f, subject.file.local_operand(expression.row, 0));
            subject.fits_variable(a, own)
        }
        Ok(ExpressionKind::FunctionArgument) => {
            let a = subject
                .file
                .argument(subject.f, subject.file.operand(expression.row, 0) as u32);
            subject.is_value(expression.e) && is_alike(subject.alike, a.ty, own)
        }
        _ => {
            let pointer = subject.file.expression_operand(expression.row, 0);
            subject.is_value(expression.e) && subject.leads_to(pointer, expression.e)
        }
    }
}
