// The clearance: the definitions stand in specs/.
#![tactic(auto)]
