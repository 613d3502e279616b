// The clearance as one pass over a body, by definition (specs/), and that it answers as the clearance does (proofs/). The code that does it will stand here.
#![tactic(auto)]
