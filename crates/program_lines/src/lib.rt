// Text for the programs: words to standard output, and parts of lent slices.
#![tactic(auto)]

pub mod part;
pub mod say;
