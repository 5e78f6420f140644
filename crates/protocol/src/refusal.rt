// Why a call was refused, and the number and the values that are returned for it.
ghost use Rattle.std.specs.Prelude.{◌≡◌};
ghost use Rattle.protocol.specs.Numbers.{number_of, returned};

use crate::state::State;

/// Which way a refused access to memory went.
#[derive(Clone, Copy)]
pub enum Direction {
    Read,
    Write,
}

/// Why a call was refused.
#[derive(Clone, Copy)]
pub enum Refusal {
    /// 1: measures outside the limits of a geometry.
    Geometry,
    /// 1: a dead list of over 16 numbers.
    DeadList,
    /// 2: a line table, lock table or word table of wrong length.
    TableLength,
    /// 3: the processor's number is not below the processors.
    Processor,
    /// 4: the address is not below 4 x the blocks of memory.
    Address,
    /// 5: the processor waits.
    Waiting,
    /// 6: LR of an address that the processor holds.
    LockHeld,
    /// 7: LR without an empty lock entry.
    NoLockEntry,
    /// 8: U or UW of an address that the processor does not hold.
    NoLock,
    /// 9: DW at a block's start where the own cache misses and another processor has a copy of the
    /// block or a lock in it.
    CopyElsewhere,
    /// 10: a machine check, with the state found.
    MachineCheck(State),
    /// 11: memory refused to read or write the block with this number.
    Memory(u32, Direction),
    /// 12: a trace that is too short or whose trailer is wrong; in writing, processors that are not
    /// 1 to 8.
    Trailer,
    /// 13: the record with this index, from 0, is wrong.
    Record(u32),
    /// 14: the output is too short for what is written.
    Output,
    /// 15: a recipe whose draws, words or processors are outside their limits.
    Recipe,
}

/// What is returned for a refusal: its number, and the values that it carries.
#[derive(Clone, Copy)]
pub struct Returned {
    /// 1 to 15.
    pub number: u8,
    /// The state found, of a machine check.
    pub found: Option<State>,
    /// The number of the block that memory refused.
    pub block: Option<u32>,
    /// Whether memory refused to read or to write it.
    pub direction: Option<Direction>,
    /// The index, from 0, of the wrong record of a trace.
    pub index: Option<u32>,
}

impl Refusal {
    // A method and no `From`: two refusals have the number 1 and three carry values, so no `as u8`
    // gives it, and the name says at a call what the `u8` is.
    /// The number that is returned for the refusal, 1 to 15.
    pub fn number(self) -> u8
        ensures { result ≡ number_of self }
    {
        match self {
            Refusal::Geometry => 1,
            Refusal::DeadList => 1,
            Refusal::TableLength => 2,
            Refusal::Processor => 3,
            Refusal::Address => 4,
            Refusal::Waiting => 5,
            Refusal::LockHeld => 6,
            Refusal::NoLockEntry => 7,
            Refusal::NoLock => 8,
            Refusal::CopyElsewhere => 9,
            Refusal::MachineCheck(_) => 10,
            Refusal::Memory(_, _) => 11,
            Refusal::Trailer => 12,
            Refusal::Record(_) => 13,
            Refusal::Output => 14,
            Refusal::Recipe => 15,
        }
    }

    /// The number that is returned for the refusal and the values that it carries: the state found
    /// of a machine check, block and direction of a memory refusal, index of a wrong record. Every
    /// other value is none.
    pub fn returned(self) -> Returned
        ensures { result ≡ returned self }
    {
        let plain = Returned {
            number: self.number(),
            found: None,
            block: None,
            direction: None,
            index: None,
        };
        match self {
            Refusal::MachineCheck(found) => Returned {
                found: Some(found),
                ..plain
            },
            Refusal::Memory(block, direction) => Returned {
                block: Some(block),
                direction: Some(direction),
                ..plain
            },
            Refusal::Record(index) => Returned {
                index: Some(index),
                ..plain
            },
            _ => plain,
        }
    }
}
