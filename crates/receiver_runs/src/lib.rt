// Demand 3 of document 01, over runs of a receiver. This crate has no code: specs/ says what a run is and what is promised of every run, and
// proofs/ proves it of the receiver's and the acknowledgement's definitions, which are what the code was proved to do.
#![tactic(auto)]
