// The check's answer, of a module that was read: what is asked, the tables of the function, whether it is judged, and the rounds.
#![tactic(auto)]

pub mod check;
pub mod heard;
pub mod judged;
pub mod scratch;
pub mod tables;
pub mod verdict;
