// Making a geometry, and where a processor's lines and lock entries stand in the tables.
ghost use Rattle.std.specs.Prelude.{◌≡◌, ◌+◌, ◌<◌, ◌≤◌, if◌then◌else◌, Ok, Err};
ghost use Rattle.protocol.specs.Limits.{lawful, measured, LowCosts};
ghost use Rattle.protocol.specs.Standard.{with_columns};
ghost use Rattle.protocol.specs.Places.{line_count, lock_count, window_start, locks_start};

use crate::directory::Window;
use crate::geometry::Geometry;
use crate::measures::{Costs, Measures};
use crate::refusal::Refusal;

impl Geometry {
    /// The geometry of these measures. Refuses measures outside their limits with 1 (`Geometry`): 1
    /// to 8 processors, a power of two of columns up to 256, 1 to 4 ways, 1 to 4 lock entries,
    /// costs of at most 1000 bus cycles.
    pub fn new(measures: Measures) -> Result<Geometry, Refusal>
        ensures { measured result
            ≡ (if lawful measures then Ok measures else Err Refusal.Geometry) }
    {
        let costs = measures.costs;
        if !(1..=8).contains(&measures.processors)
            || !measures.columns.is_power_of_two()
            || measures.columns > 256
            || !(1..=4).contains(&measures.ways)
            || !(1..=4).contains(&measures.lock_entries)
        {
            return Err(Refusal::Geometry);
        }
        if costs.swap_in > 1000
            || costs.transfer > 1000
            || costs.invalidation > 1000
            || costs.swap_out > 1000
            || costs.lock_signal > 1000
        {
            return Err(Refusal::Geometry);
        }
        Ok(Geometry { measures })
    }

    /// The geometry of `Measures::STANDARD`, which a cluster has unless others are given.
    pub fn standard() -> Geometry
        ensures { result.measures ≡ with_columns 256 }
    {
        Geometry {
            measures: Measures::STANDARD,
        }
    }

    /// The number of processors, 1 to 8.
    pub fn processors(&self) -> u8
        ensures value { result ≡ self.now.measures.processors }
        ensures bound { result ≤ 8 }
    {
        self.measures.processors
    }

    /// The number of lines of a column in one cache, 1 to 4.
    pub fn ways(&self) -> usize
        ensures value { result ≡ self.now.measures.ways }
        ensures some { 1 ≤ result }
        ensures bound { result ≤ 4 }
    {
        self.measures.ways
    }

    /// The number of lock entries of each processor, 1 to 4.
    pub fn lock_entries(&self) -> usize
        ensures value { result ≡ self.now.measures.lock_entries }
        ensures bound { result ≤ 4 }
    {
        self.measures.lock_entries
    }

    /// The costs, in bus cycles.
    pub fn costs(&self) -> Costs
        ensures value { result ≡ self.now.measures.costs }
        ensures low { LowCosts result }
    {
        self.measures.costs
    }

    /// The length of the line table: processors x columns x ways.
    pub fn line_count(&self) -> usize
        ensures { result ≡ line_count self.now.measures }
    {
        self.measures.processors as usize * self.measures.columns * self.measures.ways
    }

    /// The length of the lock table: processors x lock entries.
    pub fn lock_count(&self) -> usize
        ensures { result ≡ lock_count self.now.measures }
    {
        self.measures.processors as usize * self.measures.lock_entries
    }

    /// The places in the line table where the block may stand in the processor's cache: the ways of
    /// its column, which is the block's number modulo the columns. Lines are ordered by processor,
    /// then column, then way.
    pub fn window(&self, processor: u8, block: u32) -> Window
        ensures value { result ≡ record {
          from = window_start self.now.measures processor block;
          count = self.now.measures.ways;
        } }
        ensures within { processor < self.now.measures.processors
            → result.from + result.count ≤ line_count self.now.measures }
    {
        let column = block as usize % self.measures.columns;
        Window {
            from: (processor as usize * self.measures.columns + column) * self.measures.ways,
            count: self.measures.ways,
        }
    }

    /// The places of the processor's entries in the lock table, which is ordered by processor.
    pub fn locks_of(&self, processor: u8) -> Window
        ensures value { result ≡ record {
          from = locks_start self.now.measures processor;
          count = self.now.measures.lock_entries;
        } }
        ensures within { processor < self.now.measures.processors
            → result.from + result.count ≤ lock_count self.now.measures }
    {
        Window {
            from: processor as usize * self.measures.lock_entries,
            count: self.measures.lock_entries,
        }
    }
}
