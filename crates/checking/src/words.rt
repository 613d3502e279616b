// What a check answers, and its number, each part with its definition in specs/Word.antt.
ghost use Rattle.std.specs.Prelude.{◌≡◌};
ghost use Rattle.checking.specs.Word.{word};

use field::refusal::{REFUSAL_UNIT, Refusal};

pub const START: u64 = 1;

// From these on a statement, an expression or a statement that is not judged is named.
pub const STATEMENT: u64 = 131072;

pub const UNJUDGED_EXPRESSION: u64 = 196608;

pub const UNJUDGED_STATEMENT: u64 = 262144;

#[derive(Clone, Copy, Debug, PartialEq, Eq)]
pub enum Verdict {
    Clear,
    Start,
    Statement(u32),
    UnjudgedExpression(u32),
    UnjudgedStatement(u32),
    Refused(Refusal),
}

impl From<Verdict> for u64 {
    ghost from_gives = { λ v n. n ≡ word v };

    #[tactic(auto, unfolding(crate::specs::Word::check_word))]
    fn from(v: Verdict) -> u64 {
        match v {
            Verdict::Clear => 0,
            Verdict::Start => START,
            Verdict::Statement(s) => STATEMENT + (s as u64),
            Verdict::UnjudgedExpression(e) => UNJUDGED_EXPRESSION + (e as u64),
            Verdict::UnjudgedStatement(s) => UNJUDGED_STATEMENT + (s as u64),
            Verdict::Refused(r) => REFUSAL_UNIT * (u32::from(r) as u64),
        }
    }
}
