// Where the clearance's code finds what a pointer and an operand stand for.
#![tactic(auto)]

pub mod pointer;
pub mod slots;
pub mod sources;
pub mod steps;
pub mod target;
