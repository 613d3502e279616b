// The input of the program `report`, and what it prints for it.
#![tactic(auto)]

pub mod split;
