// The five states of a cache line.
ghost use Rattle.std.specs.Prelude.{◌≡◌};
ghost use Rattle.protocol.specs.Entries.{valid, modified};

// I stands first: it is the state of a blank line.
/// The state of a cache line. The numbers are the columns of the published tables.
#[derive(Clone, Copy, PartialEq, Eq)]
pub enum State {
    /// Invalid.
    I = 4,
    /// Shared.
    S = 3,
    /// Shared modified.
    SM = 2,
    /// Exclusive clean.
    EC = 1,
    /// Exclusive modified.
    EM = 0,
}

impl State {
    /// Whether the line has a copy of a block: every state but I.
    pub fn is_valid(self) -> bool
        ensures { result ≡ valid self }
    {
        self != State::I
    }

    /// Whether memory need not have the line's words, so that they are written back: EM and SM.
    pub fn is_modified(self) -> bool
        ensures { result ≡ modified self }
    {
        matches!(self, State::EM | State::SM)
    }
}
