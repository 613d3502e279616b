// A function's statements: whether each fits.
ghost use Rattle.std.specs.Prelude.{◌≡◌, ◌&&◌, ◌<◌, length};
ghost use Rattle.access.specs.Access.{handle_in};
ghost use Rattle.valid.specs.Valid.{MaybeBelow};
ghost use Rattle.clearance.specs.Judged.{presently, is_value, fits_return, fits_statement, failing, lowest};
ghost use Rattle.judge.specs.Blamed.{blamed};
ghost use Rattle.judge.specs.Subject.{scope_of, function_in, FitsStatementOf};

use crate::shapes::is_alike;
use crate::subject::Subject;
use module::handles::ExpressionHandle;
use module::kinds::StatementKind;

impl<'a> Subject<'a> {
    // A returned value is of the result's shape; there may be none.
    fn fits_return(&self, v: Option<ExpressionHandle>) -> bool
        requires maybe_below { MaybeBelow (length (function_in self.now).expressions) (handle_in v) }
        ensures { result ≡ presently (λ v. is_value (scope_of self.now) v && fits_return (scope_of self.now) (function_in self.now).result v) (handle_in v) }
    {
        let Some(v) = v else {
            return true;
        };
        let Some(declared) = self.file.result(self.f) else {
            return false;
        };
        self.is_value(v) && is_alike(self.alike, declared.ty, self.type_of(v))
    }

    // Whether the statement s fits, by its kind. A kind past the last is a break's.
    pub fn fits_statement(&self, s: u32) -> bool
        requires s_in_bounds { s < length (function_in self.now).statements }
        ensures { FitsStatementOf self.now s result }
    {
        let row = self.file.statement(self.f, s);
        match StatementKind::try_from(row.kind) {
            Ok(StatementKind::If | StatementKind::Switch) => {
                let condition = self.file.expression_operand(row, 0);
                self.is_value(condition)
            }
            Ok(StatementKind::Loop) => {
                let break_if = self.file.optional_expression(row, 2);
                self.maybe_value(break_if)
            }
            Ok(StatementKind::Return) => {
                let v = self.file.optional_expression(row, 0);
                self.fits_return(v)
            }
            Ok(StatementKind::Store) => {
                let pointer = self.file.expression_operand(row, 0);
                let value = self.file.expression_operand(row, 1);
                self.is_value(value) && self.leads_to(pointer, value)
            }
            Ok(
                StatementKind::Emit
                | StatementKind::Block
                | StatementKind::Break
                | StatementKind::Continue,
            ) => true,
            Ok(_) => false,
            Err(_) => true,
        }
    }

    // The lowest statement that does not fit.
    pub fn unfit_statement(&self) -> Option<u32>
        ensures { blamed result ≡ lowest (failing (λ n x. fits_statement (scope_of self.now) x) 0 (function_in self.now).statements) }
    {
        let n = self.file.statements(self.f);
        for s in 0..n {
            if !self.fits_statement(s) {
                return Some(s);
            }
        }
        None
    }
}
