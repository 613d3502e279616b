// What the need of an emitted expression asks of its operands, over memory.
#![tactic(auto)]

pub mod expression;
pub mod indexes;
pub mod load;
pub mod made;
pub mod operators;
pub mod row;
pub mod tests;
