// Policies, tried on values worked out by hand, and one such as a customer may write.
#![tactic(auto)]

pub mod counting;
pub mod lending;
#[cfg(test)]
mod tests;
