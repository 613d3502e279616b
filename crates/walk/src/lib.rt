// The walk: what a function needs, from what is asked of it.
#![tactic(auto)]
