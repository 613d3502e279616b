// One thing that an arm does.
use field::refusal::Refusal;
use memory::want::Want;
use module::handles::{ExpressionHandle, GlobalHandle, LocalHandle};

// It asks a part by value of an operand, or of a variable what is asked of the expression itself; or it refuses.
#[derive(Clone, Copy)]
pub enum Ask {
    Operand(ExpressionHandle, Want),
    Argument(u32),
    Global(GlobalHandle),
    Local(LocalHandle),
    Refuse(Refusal),
}
