// No code: what a recorded night is, as a whole and byte by byte.
#![tactic(auto)]
