// No code: a recorded night, offered to its reader piece by piece.
#![tactic(auto)]
