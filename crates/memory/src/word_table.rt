// A memory over a lent table of words.
ghost use Rattle.std.specs.Prelude.{◌≡◌, length, if◌then◌else◌, Ok, Err};
ghost use Rattle.memory.specs.Meaning.{Standing};
ghost use Rattle.memory.specs.Meaning.Standing.{loan};
ghost use Rattle.memory.specs.Words.{fit, table_of, lawful_table};

use crate::memory::{Denied, Memory};
use protocol::refusal::Refusal;

// The most words of a table: 1,048,576 blocks.
const MOST_WORDS: usize = 4_194_304;

/// A memory over a lent table of 32-bit words, all blocks live: block b is the words 4b to 4b + 3.
///
/// A table of unfit length gives no blocks.
#[derive(Drop)]
pub struct WordTable<'a> {
    words: &'a mut [u32],
}

// Whole blocks, and not too many.
fn fits(length: usize) -> bool
    ensures { result ≡ fit length }
{
    length % 4 == 0 && length <= MOST_WORDS
}

/// Tests a table of words.
///
/// Refuses with 2 a table whose length is not a multiple of 4 or is over 4,194,304.
pub fn check_table(words: &[u32]) -> Result<(), Refusal>
    ensures { result ≡ (if fit (length words.now) then Ok tt else Err Refusal.TableLength) }
{
    if !fits(words.len()) {
        return Err(Refusal::TableLength);
    }
    Ok(())
}

impl<'a> WordTable<'a> {
    /// The memory over a table, whose words a write changes in place.
    pub fn new(words: &'a mut [u32]) -> WordTable<'a>
        ensures words { result.words.now ≡ words.old }
        ensures lender { result.words.ghost_name ≡ words.entry.ghost_name }
    {
        WordTable { words }
    }
}

impl<'a> Memory for WordTable<'a> {
    ghost model = { λ s. table_of s.words.now };

    ghost lawful = { λ s. lawful_table s.words.now };

    ghost standing = { λ s. loan s.words.ghost_name };

    fn blocks(&self) -> u32 {
        let n = self.words.len();
        if fits(n) { (n / 4) as u32 } else { 0 }
    }

    fn read(&self, block: u32) -> Result<[u32; 4], Denied> {
        self.check(block)?;
        let (blocks, _) = self.words.as_chunks::<4>();
        Ok(blocks[block as usize])
    }

    fn write(&mut self, block: u32, words: [u32; 4]) -> Result<(), Denied> {
        self.check(block)?;
        let at = block as usize * 4;
        self.words[at..at + 4].copy_from_slice(&words);
        Ok(())
    }
}
