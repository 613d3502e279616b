// The check of the report that a walk has left in memory, and its line.
#![tactic(auto)]

pub mod check;
pub mod line;
pub mod record;
