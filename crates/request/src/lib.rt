// Requests and contexts as records: requests are read into the store of pieces, both are written from it.
#![tactic(auto)]

pub mod codes;
pub mod lists;
pub mod parts;
pub mod record;
pub mod requests;
pub mod write;
pub mod writer;
