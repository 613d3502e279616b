// Passes over a function's body until each loop's needs hold on re-entry, and the answer.
#![tactic(auto)]

pub mod begin;
pub mod pieces;
pub mod settle;
