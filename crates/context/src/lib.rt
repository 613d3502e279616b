// Contexts: what is needed at a point.
#![tactic(auto)]

pub mod remove;
pub mod required_context;
