// The arms of the statements that hold no block and call no function.
#![tactic(auto)]

pub mod aim;
pub mod ask;
pub mod atomic;
pub mod leaf;
pub mod leave;
pub mod rays;
pub mod returns;
pub mod store;
pub mod stores;
