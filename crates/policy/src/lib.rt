// Policies: which way of a full column is replaced, one meaning for all.
#![tactic(auto)]

pub mod extent;
pub mod longest_unmentioned;
pub mod policy;
pub mod running_turn;
