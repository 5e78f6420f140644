// A listing held against the model's, and a trace held against the rules of the format.
#![tactic(auto)]

pub mod checking;
pub mod comparing;
pub mod faults;
pub mod fields;
pub mod judging;
#[cfg(test)]
mod tests;
