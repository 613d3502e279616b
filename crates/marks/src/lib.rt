// The marks of statements in byte buffers: where they stand, how they are set and joined, and the report.
#![tactic(auto)]

pub mod joined;
pub mod lent;
pub mod places;
pub mod ray;
pub mod report;
pub mod set;
pub mod totals;
