// A turn for each processor, which goes on where it was taken.
ghost use Rattle.std.specs.Prelude.{◌≡◌, ◌≤◌, length, []};
ghost use Rattle.policy.specs.Lawful.{lawful_turning};
ghost use Rattle.policy.specs.Turns.{turning, new_turning};

use crate::extent::Extent;
use crate::policy::{Policy, Telling};
use protocol::geometry::Geometry;

/// The policy that takes the ways in turn: each processor has a turn of its own, which goes on
/// where it is told that it had named the way.
#[derive(Clone, Copy)]
pub struct RunningTurn {
    extent: Extent,
    turns: [usize; 8],
    ghost eight: { length turns ≡ 8 },
    ghost few_processors: { extent.processors ≤ 8 },
    ghost some_ways: { 1 ≤ extent.ways },
}

impl RunningTurn {
    /// The policy for a geometry, with every turn 0.
    pub fn new(geometry: &Geometry) -> RunningTurn
        ensures { ⟦<RunningTurn as Policy>⟧.model result ≡ new_turning geometry.now.measures }
    {
        RunningTurn {
            extent: Extent::of(geometry),
            turns: [0; 8],
        }
    }
}

impl Policy for RunningTurn {
    type Fixed = Extent;

    ghost model = { λ s. turning s.extent s.turns };

    ghost lawful = { λ s. lawful_turning s.extent s.turns s.some_ways };

    ghost standing = { λ s. [] };

    ghost fixed = { λ s. s.extent };

    fn processors(&self) -> u8 {
        self.extent.processors
    }

    fn columns(&self) -> usize {
        self.extent.columns
    }

    fn ways(&self) -> usize {
        self.extent.ways
    }

    fn victim_way(&self, processor: u8, _column: usize) -> usize {
        let turn = self.turns.get(processor as usize).copied().unwrap_or(0);
        turn % self.extent.ways
    }

    fn tell(&mut self, telling: Telling) {
        if telling.named && self.extent.has(telling) {
            let at = telling.processor as usize;
            let ways = self.extent.ways;
            self.turns[at] = (self.turns[at] % ways + 1) % ways;
        }
    }
}
