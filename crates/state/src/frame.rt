// Where a statement stands.
ghost use Rattle.std.specs.Prelude.{◌≡◌};
ghost use Rattle.state.specs.declared.answer.Place.TheVariants.{Statement};

use crate::answer::{Halt, Place};
use field::refusal::Refusal;
use module::handles::FunctionHandle;

// The open function and the statement; the slots of the base of its block, which is `break_context`, and of the current context; what frames hold beside the
// latter; `break_required`.
#[derive(Clone, Copy)]
pub struct Frame {
    pub function: FunctionHandle,
    pub statement: u32,
    pub base: usize,
    pub at: usize,
    pub held: usize,
    pub break_required: bool,
}

impl Frame {
    // A refusal of the statement.
    pub fn halt(&self, refusal: Refusal) -> Halt
        ensures { result ≡ record { refusal = refusal; place = Statement self.now.function self.now.statement } }
    {
        Halt {
            refusal,
            place: Place::Statement(self.function, self.statement),
        }
    }
}
