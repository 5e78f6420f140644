// What a command answers when it is not refused.
ghost use Rattle.std.specs.Prelude.{◌≡◌};
ghost use Rattle.protocol.specs.Answers.{word_in, found_in, left_in, cycles_in};

use crate::command::BusCommand;
use crate::state::State;

// No `Option<u8>`: it stands in an `Option` where none means that nobody supplied the block.
/// Who supplied a block that was asked for.
#[derive(Clone, Copy)]
pub enum Supplier {
    /// The memory: a swap-in.
    Memory,
    /// The cache of the processor with this number, from 0: a transfer.
    Cache(u8),
}

/// What a done command answers.
#[derive(Clone, Copy)]
pub struct Completion {
    /// The word read; 0 for the commands that read none.
    pub word: u32,
    /// The state in which the own cache had the block before the command; I if it had no copy.
    pub found: State,
    /// The state in which the command leaves the own copy.
    pub left: State,
    /// The bus command that was sent, if any.
    pub bus: Option<BusCommand>,
    /// Whether the lock request LK was sent.
    pub lk: bool,
    /// Whether the unlock signal UL was sent.
    pub ul: bool,
    /// Who supplied the block; none where it was not asked for.
    pub supplier: Option<Supplier>,
    /// The number of the block that was written back to make room, if one was.
    pub swapped_out: Option<u32>,
    /// The bus cycles of all that took place.
    pub cycles: u32,
}

/// What a command answers that meets another processor's lock in its block.
#[derive(Clone, Copy)]
pub struct LockHit {
    /// The lowest other processor that has a lock in the block.
    pub holder: u8,
    /// The state in which the own cache has the block, which stays.
    pub found: State,
    /// The bus cycles of one lock signal.
    pub cycles: u32,
}

// No `Result`: WAIT is an answer. The calls answer a `Result` of these, with refusals as errors.
/// What a command that is not refused answers.
#[derive(Clone, Copy)]
pub enum Answer {
    /// The command is done.
    Done(Completion),
    /// WAIT: another processor has a lock in the block, and the processor now waits for the block.
    Wait(LockHit),
}

impl Answer {
    /// The word answered; 0 for WAIT.
    pub fn word(&self) -> u32
        ensures { result ≡ word_in self.now }
    {
        match self {
            Answer::Done(done) => done.word,
            Answer::Wait(_) => 0,
        }
    }

    /// The state found in the own cache.
    pub fn found(&self) -> State
        ensures { result ≡ found_in self.now }
    {
        match self {
            Answer::Done(done) => done.found,
            Answer::Wait(hit) => hit.found,
        }
    }

    /// The state left in the own cache; for WAIT the state found.
    pub fn left(&self) -> State
        ensures { result ≡ left_in self.now }
    {
        match self {
            Answer::Done(done) => done.left,
            Answer::Wait(hit) => hit.found,
        }
    }

    /// The bus cycles that the command took.
    pub fn cycles(&self) -> u32
        ensures { result ≡ cycles_in self.now }
    {
        match self {
            Answer::Done(done) => done.cycles,
            Answer::Wait(hit) => hit.cycles,
        }
    }
}
