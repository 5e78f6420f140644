// The published protocol: commands, states, geometry, lines, lock entries, directory, state table.
#![tactic(auto)]

pub mod acting;
pub mod answer;
pub mod command;
pub mod directory;
pub mod geometry;
pub mod line;
pub mod lock;
pub mod measures;
pub mod refusal;
pub mod state;
pub mod table;
