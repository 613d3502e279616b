// The module that a file's bytes mean.
#![tactic(auto)]

pub mod access;
pub mod checks;
pub mod handles;
pub mod kinds;
pub mod operands;
pub mod record;
pub mod shape;
pub mod tables;
