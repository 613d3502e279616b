// Bindings: what a function's inputs and outputs are bound to, and which of them are needed.
#![tactic(auto)]

pub mod outputs;
pub mod set;
pub mod sum;
pub mod types;
