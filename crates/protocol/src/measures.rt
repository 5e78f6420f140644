// The numbers that describe a cluster, as a caller gives them.

/// Bus cycles of each thing that may take place on the bus.
#[derive(Clone, Copy)]
pub struct Costs {
    /// Memory supplies a block.
    pub swap_in: u32,
    /// Another cache supplies a block.
    pub transfer: u32,
    /// The bus command I.
    pub invalidation: u32,
    /// A block is written back to memory.
    pub swap_out: u32,
    /// A WAIT, or the unlock signal UL.
    pub lock_signal: u32,
}

impl Costs {
    /// The costs that a cluster has unless others are given.
    pub const STANDARD: Costs = Costs {
        swap_in: 13,
        transfer: 7,
        invalidation: 2,
        swap_out: 5,
        lock_signal: 2,
    };
}

/// The measures of a cluster, within their limits or not. `Geometry::new` tests them.
#[derive(Clone, Copy)]
pub struct Measures {
    pub processors: u8,
    /// The columns of each cache; a block stands in the column of its number modulo the columns.
    pub columns: usize,
    /// The lines of each column.
    pub ways: usize,
    /// The lock entries of each processor.
    pub lock_entries: usize,
    pub costs: Costs,
}

impl Measures {
    /// The measures that a cluster has unless others are given.
    pub const STANDARD: Measures = Measures {
        processors: 8,
        columns: 256,
        ways: 4,
        lock_entries: 2,
        costs: Costs::STANDARD,
    };
}
