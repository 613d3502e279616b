// What a judged function leaves as it stands: the laws stand in proofs/.
#![tactic(auto)]
