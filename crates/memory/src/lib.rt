// The memory of a walk: slots that name pieces of a store, parts by value, records, contexts, and room for a visit.
#![tactic(auto)]

pub mod layout;
pub mod memory;
pub mod parts;
pub mod stretches;
pub mod want;
