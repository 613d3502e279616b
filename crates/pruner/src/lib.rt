// The pruner's totals as bytes: specs/ says how, and proofs/ that they are read back.
#![tactic(auto)]

pub mod buffer;
pub mod frame;
pub mod kept;
pub mod lent;
pub mod reader;
pub mod total;
pub mod totals;
pub mod write;
