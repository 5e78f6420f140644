// Laws over calls, whatever a cluster, its tables and its memory hold.
#![tactic(auto)]

pub mod accounts;
pub mod law;
pub mod refusals;
pub mod unlocks;
