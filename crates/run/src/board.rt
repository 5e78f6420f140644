// A new cluster and tables of its own.
ghost use Rattle.std.specs.Prelude.{IfOk};
ghost use Rattle.run.specs.Board.{IsNew};
ghost use Rattle.law.specs.Along.{LawFrom};

use cluster::cluster::Cluster;
use protocol::geometry::Geometry;
use protocol::line::Line;
use protocol::lock::LockEntry;
use std::alloc::{AllocError, Global};

/// A cluster and tables of its own: processors x columns x ways lines, and processors x lock
/// entries entries.
#[derive(Drop)]
pub struct Board {
    pub cluster: Cluster,
    pub lines: Vec<Line>,
    pub locks: Vec<LockEntry>,
}

impl Board {
    /// A new cluster of a geometry with new tables. Only want of memory is an error.
    pub fn new(heap: Global, geometry: Geometry) -> Result<Board, AllocError>
        ensures new { IfOk result (λ b. IsNew geometry b.cluster b.lines.items b.locks.items) }
        ensures law { IfOk result (λ b. LawFrom geometry b.cluster b.lines.items b.locks.items) }
    {
        Ok(Board {
            cluster: Cluster::at_rest(geometry),
            lines: vec![in heap; Line::BLANK; geometry.line_count()]?,
            locks: vec![in heap; LockEntry::BLANK; geometry.lock_count()]?,
        })
    }
}
