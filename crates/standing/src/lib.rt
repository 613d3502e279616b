// What stands in memory during a pass: the slots by their use, and what a pass carries along.
#![tactic(auto)]

pub mod passing;
