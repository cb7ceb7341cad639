// No code: what is true of whatever reads bytes in portions. A program that keeps an unfinished thing from call to call is such a reader.
#![tactic(auto)]
