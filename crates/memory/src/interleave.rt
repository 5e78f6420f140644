// Two memories as one.
ghost use Rattle.std.specs.Prelude.{◌≡◌};
ghost use Rattle.memory.specs.Layers.{interleaved};
ghost use Rattle.memory.specs.Lawful.{lawful_interleave};
ghost use Rattle.memory.specs.Meaning.Standing.{both};

use crate::memory::{Denied, Memory};

// Half of the most blocks that a memory has.
const MOST_HALF: u32 = 524_288;

/// Two memories as one: block k is block k / 2 of the first, or of the second where k is odd.
#[derive(Drop)]
pub struct Interleave<P, Q> {
    first: P,
    second: Q,
}

impl<P: Memory, Q: Memory> Interleave<P, Q> {
    /// The interleave of two memories: twice as many blocks as the smaller has, at most 1,048,576.
    pub fn new(first: P, second: Q) -> Interleave<P, Q>
        ensures first { result.first ≡ first }
        ensures second { result.second ≡ second }
    {
        Interleave { first, second }
    }
}

// `read` and `write` each choose the half: a helper would have to lend either of two types, once as
// & and once as &mut.
impl<P: Memory, Q: Memory> Memory for Interleave<P, Q> {
    ghost model = { λ s. interleaved (P.Memory.model s.first) (Q.Memory.model s.second) };

    ghost lawful = { λ s. lawful_interleave (P.Memory.lawful s.first) (Q.Memory.lawful s.second) };

    ghost standing = { λ s. both (P.Memory.standing s.first) (Q.Memory.standing s.second) };

    fn blocks(&self) -> u32 {
        2 * self.first.blocks().min(self.second.blocks()).min(MOST_HALF)
    }

    fn read(&self, block: u32) -> Result<[u32; 4], Denied> {
        self.check(block)?;
        if block % 2 == 0 {
            self.first.read(block / 2)
        } else {
            self.second.read(block / 2)
        }
    }

    fn write(&mut self, block: u32, words: [u32; 4]) -> Result<(), Denied> {
        self.check(block)?;
        if block % 2 == 0 {
            self.first.write(block / 2, words)
        } else {
            self.second.write(block / 2, words)
        }
    }
}
