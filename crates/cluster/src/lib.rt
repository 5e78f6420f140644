// The cluster: its processors, its lent tables of lines and lock entries, and the command call.
#![tactic(auto)]

mod caches;
mod case;
pub mod cluster;
pub mod command;
mod cycles;
mod finishing;
mod locks;
mod making;
mod snooping;
mod supply;
mod view;
mod waking;
mod ways;
pub mod worked;
