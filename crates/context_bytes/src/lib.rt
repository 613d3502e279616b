// A context's record checked and compared where it stands: nothing is read into a store, so there is no bound on its bytes.
#![tactic(auto)]

pub mod check;
pub mod count;
pub mod cover;
pub mod find;
pub mod part_bytes;
pub mod starts;
pub mod variables_bytes;
