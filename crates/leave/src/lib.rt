// A called function is left.
#![tactic(auto)]

pub mod leave;
