// Copying a block, over any memory and in a table of words.
ghost use Rattle.std.specs.Prelude.{◌≡◌};
ghost use Rattle.memory.specs.Copying.{copied, copying};
ghost use Rattle.memory.specs.Words.{table_of};

use crate::blocks::{read_block, write_block};
use crate::memory::Memory;
use crate::word_table::WordTable;
use protocol::refusal::Refusal;

/// Copies the four words of block `from` to block `to`.
///
/// Refuses with 11 and the block, first one that memory does not read, then one that it does not
/// write; memory is then as it was.
pub fn copy_block<M: Memory>(memory: &mut M, from: u32, to: u32) -> Result<(), Refusal>
    ensures answer { result ≡ copying (M.Memory.model memory.old) from to }
    ensures after { M.Memory.model memory.new ≡ copied (M.Memory.model memory.old) from to }
    ensures kept { M.Memory.standing memory.new ≡ M.Memory.standing memory.old }
{
    let words = read_block(memory, from)?;
    write_block(memory, to, words)
}

/// Copies a block within a lent table of words, of which a table of unfit length has none. Refuses
/// as `copy_block`.
///
/// The contract speaks of what the lender of the table finds in it afterwards.
pub fn copy_in_table(words: &mut [u32], from: u32, to: u32) -> Result<(), Refusal>
    ensures answer { result ≡ copying (table_of words.old) from to }
    ensures after { table_of words.new ≡ copied (table_of words.old) from to }
{
    let mut table = WordTable::new(words);
    copy_block(&mut table, from, to)
}
