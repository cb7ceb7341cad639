// No code: what holds of any calls of a serial line's reader.
#![tactic(auto)]
