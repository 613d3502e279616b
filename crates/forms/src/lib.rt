// Types as shapes, taking a part out of a need, and trimming what a request asks.
#![tactic(auto)]

pub mod form;
pub mod place;
pub mod take;
pub mod trim;
pub mod types;
