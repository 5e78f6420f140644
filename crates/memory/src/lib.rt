// Memories of four-word blocks, one meaning for all.
#![tactic(auto)]

pub mod blocks;
pub mod copying;
pub mod dead;
pub mod interleave;
pub mod memory;
pub mod screen;
pub mod word_table;
