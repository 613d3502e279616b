// The report's lines, written into a lent buffer.
#![tactic(auto)]

pub mod contexts;
pub mod names;
pub mod own_marks;
pub mod parts;
pub mod records;
pub mod report;
pub mod required;
pub mod statements;
pub mod text;
