// What a call of a script stands on: the numbers that it asks and answers, buffers of bytes, and the checksum in which it tells of bytes.
#![tactic(auto)]

pub mod answer;
pub mod asked;
pub mod buffer;
pub mod sum;
