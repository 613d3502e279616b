// Cases A and J of 01, worked: the walk's report, its lines, and the clearance, by computation (proofs/).
#![tactic(auto)]
