// The rule of unmarked statements: nothing inside gives what is needed after it, and nothing leaves it.
#![tactic(auto)]

pub mod acts;
pub mod blocks;
pub mod need;
pub mod plain;
