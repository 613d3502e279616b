// One pass over a body, last statement first: what is needed before it, and what is carried along.
#![tactic(auto)]

pub mod blocks;
pub mod marked;
pub mod plain;
pub mod slots;
pub mod statement;
