// Bindings from bytes to bytes: of a module that was read, a request or a context as a record, and a lent slice for the answer.
#![tactic(auto)]

pub mod add;
pub mod answer;
pub mod input;
pub mod listed;
pub mod needed;
pub mod output;
