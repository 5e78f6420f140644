// One block read or written, with the refusal where memory denies it.
ghost use Rattle.std.specs.Prelude.{◌≡◌, OnErr};
ghost use Rattle.memory.specs.Blocks.{block_reading, block_granted};
ghost use Rattle.memory.specs.Meaning.{written};

use crate::memory::Memory;
use protocol::refusal::{Direction, Refusal};

/// The four words of a block. Refuses with 11, the block and `Read` what memory does not read.
pub fn read_block<M: Memory>(memory: &M, block: u32) -> Result<[u32; 4], Refusal>
    ensures { result ≡ block_reading (M.Memory.model memory.now) block }
{
    memory
        .read(block)
        .map_err(|_| Refusal::Memory(block, Direction::Read))
}

/// Writes the four words of a block. Refuses with 11, the block and `Write` what memory does not
/// write; memory is then as it was.
pub fn write_block<M: Memory>(memory: &mut M, block: u32, words: [u32; 4]) -> Result<(), Refusal>
    ensures answer { result ≡ block_granted (M.Memory.model memory.old) block }
    ensures after { M.Memory.model memory.new ≡ written (M.Memory.model memory.old) block words }
    ensures kept { M.Memory.standing memory.new ≡ M.Memory.standing memory.old }
    ensures denied { OnErr result (M.Memory.model memory.new ≡ M.Memory.model memory.old) }
{
    memory
        .write(block, words)
        .map_err(|_| Refusal::Memory(block, Direction::Write))
}
