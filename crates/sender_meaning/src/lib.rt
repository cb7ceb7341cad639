// What a sender's state says of each number, and the laws of the calls in those words. There is no code here.
#![tactic(auto)]
