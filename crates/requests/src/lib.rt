// A request from bytes to bytes.
#![tactic(auto)]

pub mod answer;
pub mod begin;
pub mod finish;
pub mod serve;
