// The census of a run: how many lines are in each state at its end, and what a drain then writes.
#![tactic(auto)]

pub mod counting;
mod report;
