// The walk of blocks.
#![tactic(auto)]

pub mod add_total;
pub mod aside;
pub mod branches;
pub mod call;
pub mod stack;
pub mod total;
pub mod workspace;
pub mod world;
