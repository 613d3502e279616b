// What reading guarantees is what the walk's laws ask: proofs/. There is nothing to run.
#![tactic(auto)]
