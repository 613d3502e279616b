// A store's target: the variable that its pointer names, with the part of it that is assigned, and what is needed of that.
#![tactic(auto)]

pub mod resolve;
pub mod store;
