// Calls beside the commands: draining all caches, counting their lines, asking who holds a lock.
#![tactic(auto)]

pub mod census;
pub mod drain;
pub mod holder;
