// The statistics of a run: what its steps did, counted, and what stands at its end.
#![tactic(auto)]

pub mod copies;
mod events;
pub mod named;
pub mod statistics;
pub mod tally;
#[cfg(test)]
mod tests;
