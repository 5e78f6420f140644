// For how many processors, columns and ways a policy is made.
ghost use Rattle.std.specs.Prelude.{◌≡◌, ◌≤◌};
ghost use Rattle.policy.specs.Extents.{extent_of, has_column, has};

use crate::policy::Telling;
use protocol::geometry::Geometry;

/// For how many processors, columns and ways a policy is made.
#[derive(Clone, Copy)]
pub struct Extent {
    pub processors: u8,
    pub columns: usize,
    pub ways: usize,
}

impl Extent {
    /// No processors, columns and ways.
    pub const NONE: Extent = Extent {
        processors: 0,
        columns: 0,
        ways: 0,
    };

    /// The extent of a geometry: 1 to 8 processors, 1 to 256 columns, 1 to 4 ways.
    pub fn of(geometry: &Geometry) -> Extent
        ensures value { result ≡ extent_of geometry.now.measures }
        ensures few_processors { result.processors ≤ 8 }
        ensures few_columns { result.columns ≤ 256 }
        ensures some_ways { 1 ≤ result.ways }
        ensures few_ways { result.ways ≤ 4 }
    {
        let processors = geometry.processors();
        let ways = geometry.ways();
        Extent {
            processors,
            columns: geometry.line_count() / ways / processors as usize,
            ways,
        }
    }

    /// Whether the processor and the column are below the numbers.
    pub fn has_column(&self, processor: u8, column: usize) -> bool
        ensures { result ≡ has_column self.now processor column }
    {
        processor < self.processors && column < self.columns
    }

    /// Whether the telling's processor, column and way are below the numbers.
    pub fn has(&self, telling: Telling) -> bool
        ensures { result ≡ has self.now telling }
    {
        self.has_column(telling.processor, telling.column) && telling.way < self.ways
    }
}
