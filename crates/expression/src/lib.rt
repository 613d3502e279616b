// The walk of an expression.
#![tactic(auto)]

pub mod add;
pub mod variables;
pub mod visit;
