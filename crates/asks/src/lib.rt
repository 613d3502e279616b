// What the arm of an expression asks, one thing at a time.
#![tactic(auto)]

pub mod arms;
pub mod ask;
pub mod fields;
pub mod what;
