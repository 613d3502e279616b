// What a run is, and what a cleared report says of two runs.
#![tactic(auto)]
