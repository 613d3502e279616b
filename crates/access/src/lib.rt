// What a module that was read has at each handle, from the file's bytes and the tables.
#![tactic(auto)]

pub mod file;
pub mod function;
pub mod kinded;
pub mod whole;
