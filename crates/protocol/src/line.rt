// A cache line, and what the directory sees of it.
ghost use Rattle.std.specs.Prelude.{◌≡◌};
ghost use Rattle.protocol.specs.Entries.{valid};
ghost use Rattle.protocol.specs.Lines.{in_state};

use crate::directory::Entry;
use crate::state::State;

/// A cache line: a copy of a block, in a state.
#[derive(Clone, Copy)]
pub struct Line {
    pub state: State,
    /// The number of the block.
    pub block: u32,
    /// The block's words.
    pub words: [u32; 4],
}

impl Line {
    /// A line that is I, with block number 0 and words 0.
    pub const BLANK: Line = Line {
        state: State::I,
        block: 0,
        words: [0; 4],
    };

    /// The same copy in another state. A line that becomes I is blank.
    pub fn with_state(self, state: State) -> Line
        ensures { result ≡ in_state self state }
    {
        match state {
            State::I => Line::BLANK,
            _ => Line { state, ..self },
        }
    }
}

impl Entry for Line {
    ghost used = { λ l. valid l.state };

    ghost label = { λ l. l.block };

    fn in_use(&self) -> bool {
        self.state.is_valid()
    }

    fn key(&self) -> u32 {
        self.block
    }
}
