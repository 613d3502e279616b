// The cases of 01, proved as one table, A, I and J from the bytes of their files: specs/Cases.antt says them, proofs/Table.antt proves them.
#![tactic(auto)]
