// The bytes that a sender was given, counted over a run of a sender and a receiver that are joined. There is no code here.
#![tactic(auto)]
