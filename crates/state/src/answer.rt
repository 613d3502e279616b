// What a walk gives.
ghost use Rattle.std.specs.Prelude.{◌≡◌};
ghost use Rattle.state.specs.State.{unplaced};

use field::refusal::Refusal;
use module::handles::{ExpressionHandle, FunctionHandle};

// Where a refusal falls.
#[derive(Clone, Copy)]
pub enum Place {
    Expression(FunctionHandle, ExpressionHandle),
    Statement(FunctionHandle, u32),
    Nowhere,
}

// The visits so far, and what records and totals count for.
#[derive(Clone, Copy)]
pub struct Tally {
    pub visits: usize,
    pub sum: usize,
}

// Why a walk is refused, and where.
#[derive(Clone, Copy)]
pub struct Halt {
    pub refusal: Refusal,
    pub place: Place,
}

// A refusal that falls at no place of the module.
impl From<Refusal> for Halt {
    ghost from_gives = { λ r h. h ≡ unplaced r };

    fn from(refusal: Refusal) -> Halt {
        Halt {
            refusal,
            place: Place::Nowhere,
        }
    }
}

// A walk without an answer of its own: how far it went.
pub type Walked = Result<Tally, Halt>;

// How far a walk went, and whether what it walked is required.
#[derive(Clone, Copy)]
pub struct Answer {
    pub tally: Tally,
    pub required: bool,
}

pub type Answered = Result<Answer, Halt>;
