// A list of dead blocks.
ghost use Rattle.std.specs.Prelude.{◌≡◌, length, replicate, if◌then◌else◌, None, Ok, Err, nat_le};
ghost use Rattle.memory.specs.Dead.{listed, filled};

use protocol::refusal::Refusal;
use std::array;

// 16 places and no heap.
/// A list of at most 16 dead blocks, by number.
#[derive(Clone, Copy)]
pub struct DeadList {
    blocks: [Option<u32>; 16],
}

impl DeadList {
    /// A list that names no block.
    pub fn new() -> DeadList
        ensures { result.blocks ≡ replicate 16 None }
    {
        DeadList { blocks: [None; 16] }
    }

    /// Lists these blocks and no others. Refuses more than 16 with 1 (`DeadList`), and the list is
    /// then as it was.
    pub fn fill(&mut self, numbers: &[u32]) -> Result<(), Refusal>
        ensures answer { result
            ≡ (if nat_le (length numbers.now) 16 then Ok tt else Err Refusal.DeadList) }
        ensures after { self.new.blocks
            ≡ (if nat_le (length numbers.now) 16 then filled numbers.now else self.old.blocks) }
    {
        if numbers.len() > 16 {
            return Err(Refusal::DeadList);
        }
        self.blocks = array::from_fn(|i| numbers.get(i).copied());
        Ok(())
    }

    /// Whether the list names the block.
    pub fn contains(&self, block: u32) -> bool
        ensures { result ≡ listed self.now.blocks block }
    {
        self.blocks.contains(&Some(block))
    }
}
