// One ask of a pass, over memory: what it asks is pushed, and then its sum with the needs at hand.
#![tactic(auto)]

pub mod ask;
