// A pointer's indexes are found from last to first: one step down its operands at a time.
ghost use Rattle.place.specs.Steps.{StepDown};

use crate::pointer::PointerExpression;
use module::handles::ExpressionHandle;
use module::kinds::ExpressionKind;

// What a pointer is: a variable, a constant index of a base, a dynamic index of a base.
#[derive(Clone, Copy, Drop)]
pub enum Step<'a> {
    Global(u16),
    Local(u16),
    Constant(PointerExpression<'a>, u16),
    Dynamic(PointerExpression<'a>, ExpressionHandle),
}

impl<'a> PointerExpression<'a> {
    pub fn step_down(&self) -> Step<'a>
        ensures { StepDown self.now result }
    {
        let file = self.file;
        let f = self.f;
        let row = file.expression(f, self.e);
        match ExpressionKind::try_from(row.kind) {
            Ok(ExpressionKind::AccessIndex) => {
                let e = file.expression_operand(row, 0);
                let base = PointerExpression { file, f, e };
                Step::Constant(base, file.operand(row, 1))
            }
            Ok(ExpressionKind::Access) => {
                let e = file.expression_operand(row, 0);
                let base = PointerExpression { file, f, e };
                Step::Dynamic(base, file.expression_operand(row, 1))
            }
            Ok(ExpressionKind::LocalVariable) => Step::Local(file.operand(row, 0)),
            _ => Step::Global(file.operand(row, 0)),
        }
    }
}
