// Runs of a trace over a cluster, and their listings.
#![tactic(auto)]

pub mod board;
pub mod listing;
pub mod run;
pub mod running;
pub mod stepping;
pub mod watching;

pub use text::{digits, names};
