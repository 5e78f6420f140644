// The processors' commands and the bus commands.
ghost use Rattle.std.specs.Prelude.{◌≡◌};
ghost use Rattle.protocol.specs.Acting.{written_by};

/// A processor's command, with the word that it writes where it writes one.
#[derive(Clone, Copy)]
pub enum Command {
    /// Read.
    R,
    /// Write.
    W(u32),
    /// Write; at a block's start also the block's other three words, which become 0.
    DW(u32),
    /// Read and invalidate: no other cache keeps the block.
    RI,
    /// Read and purge: no cache keeps the block, and its words are not written back.
    RP,
    /// Read: as RP on a block's last word, elsewhere as RI where only other caches have the block,
    /// else as R.
    RB,
    /// Lock and read.
    LR,
    /// Write and unlock.
    UW(u32),
    /// Unlock.
    U,
}

impl Command {
    /// The word that the command writes, if it writes one: W, DW and UW do.
    pub fn written(self) -> Option<u32>
        ensures { result ≡ written_by self }
    {
        match self {
            Command::W(word) | Command::DW(word) | Command::UW(word) => Some(word),
            _ => None,
        }
    }
}

/// What a command acts as. In this order they are the rows of the state table.
#[derive(Clone, Copy, PartialEq, Eq)]
pub enum Action {
    R,
    W,
    DW,
    RI,
    RP,
    LR,
    UW,
    U,
}

/// What is sent on the bus to the other caches. In this order they are the rows of the snoop table.
#[derive(Clone, Copy, PartialEq, Eq)]
pub enum BusCommand {
    /// Fetch.
    F,
    /// Fetch and invalidate.
    FI,
    /// Invalidate.
    I,
}

/// A command, who gives it and where.
#[derive(Clone, Copy)]
pub struct Request {
    /// The processor's number, from 0.
    pub processor: u8,
    pub command: Command,
    /// The word address.
    pub address: u32,
}
