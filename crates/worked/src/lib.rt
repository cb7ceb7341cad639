// Document 01's "Numbers to check by hand", those marked P: one table, and one statement over it. There is no code here; the definitions
// that the code is proved to follow compute each line.
#![tactic(auto)]
