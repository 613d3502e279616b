// The check of a report behind the C boundary: of any bytes, in arrays of its own.
#![tactic(auto)]

pub mod check;
