// The format of docs/DRIVE.md: what each letter asks, how it is read from the script, and how its call is told.
#![tactic(auto)]

pub mod input;
pub mod table;
pub mod take;
pub mod tell;
