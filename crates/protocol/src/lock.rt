// An entry of the lock directory, and what the directory sees of it.
ghost use Rattle.protocol.specs.Entries.{locked};

use crate::directory::Entry;

// E stands first: it is the state of a blank entry.
/// The state of an entry of the lock directory.
#[derive(Clone, Copy, PartialEq, Eq)]
pub enum LockState {
    /// Empty.
    E,
    /// Locked.
    L,
    /// Locked, and some processor waits.
    LW,
}

/// An entry of the lock directory.
#[derive(Clone, Copy)]
pub struct LockEntry {
    pub state: LockState,
    /// The word address that is locked.
    pub address: u32,
}

impl LockEntry {
    /// An empty entry, with address 0.
    pub const BLANK: LockEntry = LockEntry {
        state: LockState::E,
        address: 0,
    };
}

impl Entry for LockEntry {
    ghost used = { λ e. locked e.state };

    ghost label = { λ e. e.address };

    fn in_use(&self) -> bool {
        self.state != LockState::E
    }

    fn key(&self) -> u32 {
        self.address
    }
}
