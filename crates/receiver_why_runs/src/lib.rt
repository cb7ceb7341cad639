// Over runs of a receiver, what `receiver_why::why` says agrees with the history. This crate has no code: specs/ says what is promised of every run, and
// proofs/ proves it of the definitions.
#![tactic(auto)]
