// A memory of which some blocks are dead.
ghost use Rattle.std.specs.Prelude.{◌≡◌};
ghost use Rattle.memory.specs.Layers.{screened};
ghost use Rattle.memory.specs.Lawful.{lawful_screen};
ghost use Rattle.memory.specs.Meaning.Standing.{behind};

use crate::dead::DeadList;
use crate::memory::{Denied, Memory};

/// A memory over another in which the listed blocks are dead.
#[derive(Drop)]
pub struct Screen<M> {
    below: M,
    dead: DeadList,
}

impl<M: Memory> Screen<M> {
    /// The memory `below`, with the blocks of the list dead.
    pub fn new(below: M, dead: DeadList) -> Screen<M>
        ensures below { result.below ≡ below }
        ensures dead { result.dead ≡ dead }
    {
        Screen { below, dead }
    }
}

impl<M: Memory> Memory for Screen<M> {
    ghost model = { λ s. screened s.dead.blocks (M.Memory.model s.below) };

    ghost lawful = { λ s. lawful_screen s.dead.blocks (M.Memory.lawful s.below) };

    ghost standing = { λ s. behind s.dead.blocks (M.Memory.standing s.below) };

    fn blocks(&self) -> u32 {
        self.below.blocks()
    }

    fn read(&self, block: u32) -> Result<[u32; 4], Denied> {
        if self.dead.contains(block) {
            return Err(Denied);
        }
        self.below.read(block)
    }

    fn write(&mut self, block: u32, words: [u32; 4]) -> Result<(), Denied> {
        if self.dead.contains(block) {
            return Err(Denied);
        }
        self.below.write(block, words)
    }
}
