// Traces: records of sixteen bytes between a note and a trailer.
#![tactic(auto)]

pub mod copying;
pub mod record;
pub mod records;
pub mod trace;
pub mod trailer;
pub mod writer;
pub mod writing;
