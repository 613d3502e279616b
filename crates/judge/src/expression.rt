// An expression of a function, with its row.
ghost use Rattle.judge.specs.Subject.{RowOf};

use crate::subject::Subject;
use access::kinded::Kinded;
use module::handles::ExpressionHandle;

#[derive(Clone, Copy, Drop)]
pub struct SubjectExpression<'a> {
    pub subject: &'a Subject<'a>,
    pub row: Kinded,
    pub e: ExpressionHandle,
    pub ghost row_of: { RowOf subject.now e.0 row },
}
