// Reading a module: record by record into the tables, with what is checked where a function ends.
#![tactic(auto)]

pub mod add;
pub mod blocks;
pub mod ends;
pub mod read;
pub mod record;
pub mod room;
