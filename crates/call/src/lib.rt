// The end of a call: what the called function needs of its arguments, and what is asked of the result.
#![tactic(auto)]

pub mod arguments;
pub mod ends;
