// A function's expressions: whether each fits, and the lowest that is not judged.
ghost use Rattle.std.specs.Prelude.{◌≡◌, ◌<◌, length};
ghost use Rattle.context.specs.Types.{types_of};
ghost use Rattle.clearance.specs.Judged.{judged_expression, blamed_expression};
ghost use Rattle.judge.specs.Unsized.{UnsizedTable};
ghost use Rattle.judge.specs.Blamed.{blamed};
ghost use Rattle.judge.specs.Subject.{scope_of, function_in, FitsOf};

use crate::expression::SubjectExpression;
use crate::indexes::fits_index;
use crate::made::fits_made;
use crate::named::fits_named;
use crate::operators::fits_operator;
use crate::subject::Subject;
use crate::unsized_types::holds_either;
use module::handles::ExpressionHandle;
use module::kinds::ExpressionKind;

impl<'a> Subject<'a> {
    // Whether the expression e fits, by the group of its kind. A kind past the last is a literal's.
    pub fn fits_expression(&self, e: ExpressionHandle) -> bool
        requires e_in_bounds { e.0 < length (function_in self.now).expressions }
        ensures { FitsOf self.now e.0 result }
    {
        let row = self.file.expression(self.f, e);
        let expression = SubjectExpression {
            subject: &*self,
            row,
            e,
        };
        match ExpressionKind::try_from(row.kind) {
            Ok(ExpressionKind::Literal | ExpressionKind::ZeroValue | ExpressionKind::Constant) => {
                self.is_value(e)
            }
            Ok(ExpressionKind::AccessIndex | ExpressionKind::Access) => { fits_index(&expression) }
            Ok(ExpressionKind::Splat | ExpressionKind::Swizzle | ExpressionKind::Compose) => {
                fits_made(&expression)
            }
            Ok(
                ExpressionKind::FunctionArgument
                | ExpressionKind::GlobalVariable
                | ExpressionKind::LocalVariable
                | ExpressionKind::Load,
            ) => fits_named(&expression),
            Ok(
                ExpressionKind::Unary
                | ExpressionKind::Binary
                | ExpressionKind::Select
                | ExpressionKind::Derivative
                | ExpressionKind::Relational
                | ExpressionKind::Math
                | ExpressionKind::As,
            ) => fits_operator(&expression),
            Ok(_) => false,
            Err(_) => self.is_value(e),
        }
    }

    // Whether the expression e fits and neither its type nor its pointee holds an unsized array.
    pub fn judged_expression(&self, held: &[bool], e: ExpressionHandle) -> bool
        requires unsized_table { UnsizedTable (types_of self.now.types.now) held.now }
        requires e_in_bounds { e.0 < length (function_in self.now).expressions }
        ensures { result ≡ judged_expression (scope_of self.now) e.0 }
    {
        let own = self.type_of(e);
        if holds_either(self.types, held, own) {
            return false;
        }
        self.fits_expression(e)
    }

    // The lowest expression that is not judged.
    pub fn blamed_expression(&self, held: &[bool]) -> Option<u32>
        requires unsized_table { UnsizedTable (types_of self.now.types.now) held.now }
        ensures { blamed result ≡ blamed_expression (scope_of self.now) }
    {
        let n = self.file.expressions(self.f);
        for e in 0..n {
            if !self.judged_expression(held, ExpressionHandle(e)) {
                return Some(e);
            }
        }
        None
    }
}
