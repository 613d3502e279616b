// What the walks give, and what the memory means to them: specs/State.antt and Ready.antt.
#![tactic(auto)]

pub mod answer;
pub mod frame;
