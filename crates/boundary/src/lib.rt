// Behind the C boundary: each operation from bytes to a number and bytes, over arrays that `tickingtor` has.
#![tactic(auto)]

pub mod add;
pub mod answer;
pub mod input;
pub mod output;
pub mod room;
pub mod rows;
pub mod serve;
