// The lines that show answers and tables, every field of them, put together for the reason that
// stands at `text::lines::put_field`.
use protocol::answer::{Answer, Completion, LockHit, Supplier};
use protocol::command::{BusCommand, Request};
use protocol::line::Line;
use protocol::lock::{LockEntry, LockState};
use protocol::refusal::{Direction, Refusal};
use std::alloc::AllocError;
use text::digits::{decimal, hexadecimal};
use text::lines::{put_field, put_last};
use text::names::{command_name, state_name};

// Names of two places, as those of commands and states in the crate `text`, and for its reason.
fn bus_name(bus: Option<BusCommand>) -> [u8; 2] {
    match bus {
        None => *b"--",
        Some(BusCommand::F) => *b"F ",
        Some(BusCommand::FI) => *b"FI",
        Some(BusCommand::I) => *b"I ",
    }
}

fn processor_name(processor: u8) -> [u8; 2] {
    let digit = decimal::<1>(processor as u64);
    [b'P', digit[0]]
}

fn supplier_name(supplier: Option<Supplier>) -> [u8; 2] {
    match supplier {
        None => *b"--",
        Some(Supplier::Memory) => *b"M ",
        Some(Supplier::Cache(processor)) => processor_name(processor),
    }
}

fn block_name(block: Option<u32>) -> [u8; 8] {
    block.map_or(*b"--------", hexadecimal)
}

fn put_flag(out: &mut Vec<u8>, set: bool) -> Result<(), AllocError> {
    put_field(out, &decimal::<1>(u64::from(set)))
}

// A name at the end of a line or of an item, where no space fills it up.
fn put_bare(out: &mut Vec<u8>, name: [u8; 2]) -> Result<(), AllocError> {
    out.extend_from_slice(name.trim_ascii_end())
}

fn put_bus(out: &mut Vec<u8>, done: &Completion) -> Result<(), AllocError> {
    put_field(out, &bus_name(done.bus))?;
    put_flag(out, done.lk)?;
    put_flag(out, done.ul)
}

fn put_done(out: &mut Vec<u8>, done: &Completion) -> Result<(), AllocError> {
    put_field(out, b"OK")?;
    put_field(out, &hexadecimal(done.word))?;
    put_field(out, &state_name(done.found))?;
    put_field(out, &state_name(done.left))?;
    put_bus(out, done)?;
    put_field(out, &supplier_name(done.supplier))?;
    put_field(out, &block_name(done.swapped_out))?;
    put_last(out, &decimal::<4>(done.cycles as u64))
}

fn put_wait(out: &mut Vec<u8>, hit: &LockHit) -> Result<(), AllocError> {
    put_field(out, b"WT")?;
    put_field(out, &processor_name(hit.holder))?;
    put_field(out, &state_name(hit.found))?;
    put_last(out, &decimal::<4>(hit.cycles as u64))
}

fn direction_letter(direction: Direction) -> u8 {
    match direction {
        Direction::Read => b'R',
        Direction::Write => b'W',
    }
}

// What a refusal carries besides its number.
fn put_details(out: &mut Vec<u8>, refusal: Refusal) -> Result<(), AllocError> {
    match refusal {
        Refusal::MachineCheck(state) => {
            out.push(b' ')?;
            put_bare(out, state_name(state))
        }
        Refusal::Memory(block, direction) => {
            out.push(b' ')?;
            put_field(out, &hexadecimal(block))?;
            out.push(direction_letter(direction))?;
            Ok(())
        }
        _ => Ok(()),
    }
}

fn put_refusal(out: &mut Vec<u8>, refusal: Refusal) -> Result<(), AllocError> {
    out.extend_from_slice(&decimal::<2>(refusal.number() as u64))?;
    put_details(out, refusal)?;
    put_last(out, b"")
}

/// The line of a step: the command and what it was answered, field by field.
pub fn put_step(
    out: &mut Vec<u8>,
    request: Request,
    answer: &Result<Answer, Refusal>,
) -> Result<(), AllocError> {
    put_field(out, &decimal::<1>(request.processor as u64))?;
    put_field(out, &command_name(request.command))?;
    put_field(out, &hexadecimal(request.address))?;
    match answer {
        Ok(Answer::Done(done)) => put_done(out, done),
        Ok(Answer::Wait(hit)) => put_wait(out, hit),
        Err(refusal) => put_refusal(out, *refusal),
    }
}

// A refusal behind what was asked.
fn put_refused(out: &mut Vec<u8>, refusal: Refusal) -> Result<(), AllocError> {
    put_last(out, &decimal::<2>(refusal.number() as u64))
}

/// The line of making the cluster new.
pub fn put_made_new(out: &mut Vec<u8>, answer: Result<(), Refusal>) -> Result<(), AllocError> {
    put_field(out, b"new")?;
    match answer {
        Ok(()) => put_last(out, b"OK"),
        Err(refusal) => put_refused(out, refusal),
    }
}

/// The line of a lock question.
pub fn put_holder(
    out: &mut Vec<u8>,
    address: u32,
    answer: Result<Option<u8>, Refusal>,
) -> Result<(), AllocError> {
    put_field(out, b"holder")?;
    put_field(out, &hexadecimal(address))?;
    match answer {
        Ok(holder) => put_last(out, &holder.map_or(*b"--", processor_name)),
        Err(refusal) => put_refused(out, refusal),
    }
}

/// An entry of a table, which is shown in the table's line where it is in use.
pub trait Shown {
    fn put(&self, out: &mut Vec<u8>, processor: u64) -> Result<(), AllocError>;
}

// The processor that has the entry, what the entry is for, and its state.
fn put_item(
    out: &mut Vec<u8>,
    processor: u64,
    place: &[u8],
    name: [u8; 2],
) -> Result<(), AllocError> {
    out.push(b' ')?;
    out.extend_from_slice(&decimal::<1>(processor))?;
    out.push(b':')?;
    out.extend_from_slice(place)?;
    out.push(b'=')?;
    put_bare(out, name)
}

impl Shown for Line {
    fn put(&self, out: &mut Vec<u8>, processor: u64) -> Result<(), AllocError> {
        if !self.state.is_valid() {
            return Ok(());
        }
        let block = decimal::<4>(u64::from(self.block));
        put_item(out, processor, &block, state_name(self.state))
    }
}

impl Shown for LockEntry {
    fn put(&self, out: &mut Vec<u8>, processor: u64) -> Result<(), AllocError> {
        let address = hexadecimal(self.address);
        match self.state {
            LockState::E => Ok(()),
            LockState::L => put_item(out, processor, &address, *b"L "),
            LockState::LW => put_item(out, processor, &address, *b"LW"),
        }
    }
}

// The processor that has the entry at an index of a table with so many entries for each.
fn owner(index: usize, each: usize) -> u64 {
    index.checked_div(each).unwrap_or(0) as u64
}

/// The line of a table: the entries in use, where each processor has `each` entries.
pub fn put_table<T: Shown>(
    out: &mut Vec<u8>,
    title: &[u8],
    table: &[T],
    each: usize,
) -> Result<(), AllocError> {
    out.extend_from_slice(title)?;
    for (i, entry) in table.iter().enumerate() {
        entry.put(out, owner(i, each))?;
    }
    put_last(out, b"")
}
