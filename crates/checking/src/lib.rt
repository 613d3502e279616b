// The check of a report from bytes: what it answers stands in specs/. Of the code: where the marks of the asked function stand, and the numbers of answers.
#![tactic(auto)]

pub mod firsts;
pub mod shape;
pub mod words;
