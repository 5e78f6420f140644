// Locks that program code holds, and what it can do with one alone.
#![tactic(auto)]

pub mod bump;
pub mod hold;
#[cfg(test)]
mod tests;
