// The memory of a clearance pass: a store of pieces, and slots that are its roots, with the working bound on the cells that they reach.
#![tactic(auto)]

pub mod hold;
