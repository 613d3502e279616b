// Needs as the clearance's code keeps them: as pieces of a store, trimmed once.
#![tactic(auto)]

pub mod path;
