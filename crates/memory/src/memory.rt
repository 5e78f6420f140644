// What every memory can do.
ghost use Rattle.std.specs.Prelude.{◌≡◌, if◌then◌else◌, Ok, Err, nat_lt};
ghost use Rattle.memory.specs.Meaning.{Mem, Lawful, Standing, denied, reading, granted, written};

/// Why a block is neither read nor written: it is dead, or not below the number of blocks.
#[derive(Clone, Copy)]
pub struct Denied;

/// A memory of blocks of four words.
pub trait Memory {
    /// What it means: the number of blocks, which blocks are live, and each block's four words.
    ghost model: { Self → Mem };

    /// It has at most 1,048,576 blocks, each of four words.
    ghost lawful: { (s : Self) → Lawful (model s) };

    // Each call has a clause that keeps it, since an invariant sees one value and not two.
    /// The loans and the dead lists that it stands on, which no call changes.
    ghost standing: { Self → Standing };

    /// The number of blocks.
    fn blocks(&self) -> u32
        ensures { result ≡ (model self.now).count };

    /// Refuses a block that is not below the number.
    fn check(&self, block: u32) -> Result<(), Denied>
        ensures { result ≡ (if nat_lt block (model self.now).count then Ok tt else Err denied) }
    {
        if block >= self.blocks() {
            return Err(Denied);
        }
        Ok(())
    }

    /// The four words of a block. Refuses a dead block, or one that is not below the number.
    fn read(&self, block: u32) -> Result<[u32; 4], Denied>
        ensures { result ≡ reading (model self.now) block };

    /// Writes the four words of a block. Refuses a dead block, or one that is not below the number;
    /// the words of all blocks are then as they were.
    fn write(&mut self, block: u32, words: [u32; 4]) -> Result<(), Denied>
        ensures answer { result ≡ granted (model self.old) block }
        ensures after { model self.new ≡ written (model self.old) block words }
        ensures kept { standing self.new ≡ standing self.old };
}
