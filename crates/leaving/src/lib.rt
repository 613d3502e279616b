// Statements that leave, in a pass: break, continue and return. And those of kinds that are not judged, of which there is nothing to walk.
#![tactic(auto)]

pub mod leave;
