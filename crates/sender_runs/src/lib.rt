// Runs of a sender, and what is promised of every run. There is no code here.
#![tactic(auto)]
