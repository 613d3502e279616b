// The walk of blocks, statements and functions, each equal to its definition.
#![tactic(auto)]

pub mod add;
