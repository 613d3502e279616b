// One act of a pass, over memory: what it gives is taken out of the needs, and what it reads is asked.
#![tactic(auto)]

pub mod emits;
pub mod marks;
pub mod stores;
pub mod take;
