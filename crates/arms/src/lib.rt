// The arms of statements that hold blocks or call functions, but for the walks of those: how they end, their marks.
#![tactic(auto)]

pub mod calls;
pub mod emit;
pub mod ifs;
pub mod loops;
pub mod switch;
pub mod visit;
