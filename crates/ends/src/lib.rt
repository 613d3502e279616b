// How the parts of a pass that walk no block go on in memory: points, faults, two slots that become one, the end of a loop.
#![tactic(auto)]

pub mod held;
pub mod merge;
pub mod notes;
