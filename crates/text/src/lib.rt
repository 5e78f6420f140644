// The lines of a listing: numbers in digits, names, and what a run tells.
#![tactic(auto)]

pub mod digits;
pub mod lines;
pub mod names;
pub mod step;
