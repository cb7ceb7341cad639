// A run of one sender and one receiver, joined, in which something happens, computed (specs/Example, proofs/Happens). No code.
#![tactic(auto)]
