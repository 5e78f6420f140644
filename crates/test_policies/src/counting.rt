// A policy such as a customer may write.
ghost use Rattle.std.specs.Prelude.{◌≡◌, ◌≤◌, []};
ghost use Rattle.test_policies.specs.Counting.{counting, lawful_counting, new_counting};

use policy::extent::Extent;
use policy::policy::{Policy, Telling};
use protocol::geometry::Geometry;

/// It names the way with the number of tellings so far, modulo the ways, whatever they told.
#[derive(Clone, Copy)]
pub struct Counting {
    extent: Extent,
    // Modulo the ways, so that it stays in range.
    tellings: usize,
    ghost some_ways: { 1 ≤ extent.ways },
}

impl Counting {
    /// The policy for a geometry, told nothing.
    pub fn new(geometry: &Geometry) -> Counting
        ensures { ⟦<Counting as Policy>⟧.model result ≡ new_counting geometry.now.measures }
    {
        Counting {
            extent: Extent::of(geometry),
            tellings: 0,
        }
    }
}

impl Policy for Counting {
    type Fixed = Extent;

    ghost model = { λ s. counting s.extent s.tellings };

    ghost lawful = { λ s. lawful_counting s.extent s.tellings s.some_ways };

    ghost standing = { λ s. [] };

    ghost fixed = { λ s. s.extent };

    fn processors(&self) -> u8 {
        self.extent.processors
    }

    fn columns(&self) -> usize {
        self.extent.columns
    }

    fn ways(&self) -> usize {
        self.extent.ways
    }

    fn victim_way(&self, _processor: u8, _column: usize) -> usize {
        self.tellings % self.extent.ways
    }

    fn tell(&mut self, _telling: Telling) {
        self.tellings = self.tellings % self.extent.ways + 1;
    }
}
