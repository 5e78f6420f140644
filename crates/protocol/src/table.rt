// The state table and the snoop table: a row for each command, columns EM, EC, SM, S, I.
ghost use Rattle.std.specs.Prelude.{◌≡◌, ◌<◌};
ghost use Rattle.protocol.specs.StateTable.{cell_of, column_for, row_for, snooped, snoop_row_for};

use crate::command::{Action, BusCommand};
use crate::state::State;

/// A cell of the state table that is no machine check: what is sent, and the state left.
#[derive(Clone, Copy)]
pub struct Effect {
    /// The bus command that is sent, if any.
    pub bus: Option<BusCommand>,
    /// Whether the lock request LK is sent.
    pub lk: bool,
    /// The state left when another cache supplies the block.
    pub from_cache: State,
    /// The state left when memory supplies the block, or nobody.
    pub from_memory: State,
}

/// A cell of the state table: none where the command is a machine check.
pub type Cell = Option<Effect>;

// Written out one by one: the checker supports no call in a constant's value.
const MC: Cell = None;

const EM: Cell = Some(Effect {
    bus: None,
    lk: false,
    from_cache: State::EM,
    from_memory: State::EM,
});

const EC: Cell = Some(Effect {
    bus: None,
    lk: false,
    from_cache: State::EC,
    from_memory: State::EC,
});

const SM: Cell = Some(Effect {
    bus: None,
    lk: false,
    from_cache: State::SM,
    from_memory: State::SM,
});

const S: Cell = Some(Effect {
    bus: None,
    lk: false,
    from_cache: State::S,
    from_memory: State::S,
});

const I: Cell = Some(Effect {
    bus: None,
    lk: false,
    from_cache: State::I,
    from_memory: State::I,
});

const F_S_EC: Cell = Some(Effect {
    bus: Some(BusCommand::F),
    lk: false,
    from_cache: State::S,
    from_memory: State::EC,
});

const I_EM: Cell = Some(Effect {
    bus: Some(BusCommand::I),
    lk: false,
    from_cache: State::EM,
    from_memory: State::EM,
});

const FI_EM: Cell = Some(Effect {
    bus: Some(BusCommand::FI),
    lk: false,
    from_cache: State::EM,
    from_memory: State::EM,
});

const FI_EM_EC: Cell = Some(Effect {
    bus: Some(BusCommand::FI),
    lk: false,
    from_cache: State::EM,
    from_memory: State::EC,
});

const FI_I: Cell = Some(Effect {
    bus: Some(BusCommand::FI),
    lk: false,
    from_cache: State::I,
    from_memory: State::I,
});

const LK_I_EM: Cell = Some(Effect {
    bus: Some(BusCommand::I),
    lk: true,
    from_cache: State::EM,
    from_memory: State::EM,
});

const LK_FI_EM_EC: Cell = Some(Effect {
    bus: Some(BusCommand::FI),
    lk: true,
    from_cache: State::EM,
    from_memory: State::EC,
});

// A row for each `Action`, in its order; columns EM, EC, SM, S, I.
const TABLE: [[Cell; 5]; 8] = [
    [EM, EC, SM, S, F_S_EC],
    [EM, EM, I_EM, I_EM, FI_EM],
    [MC, MC, MC, MC, EM],
    [EM, EC, MC, MC, FI_EM_EC],
    [I, I, MC, MC, FI_I],
    [EM, EC, LK_I_EM, LK_I_EM, LK_FI_EM_EC],
    [EM, EM, MC, MC, FI_EM],
    [EM, EC, MC, MC, I],
];

// What a copy in another cache becomes: a row for each bus command, F, FI and I; columns EM, EC,
// SM, S, I.
const SNOOP: [[State; 5]; 3] = [
    [State::SM, State::S, State::SM, State::S, State::I],
    [State::I, State::I, State::I, State::I, State::I],
    [State::I, State::I, State::I, State::I, State::I],
];

// The numbers of `State`, `Action` and `BusCommand` are their columns and rows.
fn column(state: State) -> usize
    ensures value { result ≡ column_for state }
    ensures bound { result < 5 }
{
    state as usize
}

fn row(action: Action) -> usize
    ensures value { result ≡ row_for action }
    ensures bound { result < 8 }
{
    action as usize
}

fn snoop_row(bus: BusCommand) -> usize
    ensures value { result ≡ snoop_row_for bus }
    ensures bound { result < 3 }
{
    bus as usize
}

/// The cell of the state table for what a command acts as and the state found.
pub fn look_up(action: Action, found: State) -> Cell
    ensures { result ≡ cell_of action found }
{
    TABLE[row(action)][column(found)]
}

/// The state of another cache's copy after a bus command.
pub fn snoop(bus: BusCommand, copy: State) -> State
    ensures { result ≡ snooped bus copy }
{
    SNOOP[snoop_row(bus)][column(copy)]
}
