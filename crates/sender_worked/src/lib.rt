// A run of a sender in which something happens, computed (specs/Example, proofs/Happens). No code.
#![tactic(auto)]
