// What reading guarantees of a module: specs/Valid.antt, proved of the file form in proofs/. There is nothing to run.
#![tactic(auto)]
