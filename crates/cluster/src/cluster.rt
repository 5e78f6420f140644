// The cluster and its table of processor records.
ghost use Rattle.std.specs.Prelude.{◌≡◌, length};

use protocol::geometry::Geometry;

/// What the cluster keeps of a processor: its turn, which names the way that is replaced next in a
/// full column, and the number of the block that it waits for, if any.
#[derive(Clone, Copy)]
pub struct Processor {
    pub turn: usize,
    pub waits_for: Option<u32>,
}

impl Processor {
    /// Turn 0, waiting for nothing.
    pub const AT_REST: Processor = Processor {
        turn: 0,
        waits_for: None,
    };
}

/// A cluster: its geometry and a record for each of eight processors, of which it uses as many as
/// its geometry has. The line table and the lock table are lent to each call.
#[derive(Clone, Copy)]
pub struct Cluster {
    pub(crate) geometry: Geometry,
    pub(crate) processors: [Processor; 8],
    ghost eight: { length processors ≡ 8 },
}
