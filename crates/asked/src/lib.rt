// What an expression asks of its operands, in a judged function: the definitions stand in specs/, the laws in proofs/.
#![tactic(auto)]
