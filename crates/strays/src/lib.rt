// The statements that leave where it is not allowed, and the lowest statement to blame.
#![tactic(auto)]

pub mod blame;
pub mod blocks;
pub mod exits;
pub mod lower;
