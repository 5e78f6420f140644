// Traces made from a recipe: reads, writes and locked updates that a rule draws from a number.
#![tactic(auto)]

mod drawing;
pub mod recipe;
pub mod worked;
