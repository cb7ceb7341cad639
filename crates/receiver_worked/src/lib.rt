// A run of a receiver in which something happens, computed (specs/Example, proofs/Happens). No code.
#![tactic(auto)]
