// A case as bytes: its name, what it asks for, and the trace or the records that it is asked of.
ghost use Rattle.std.specs.Prelude.{length};
ghost use Rattle.std.specs.Iterator.{at_most};

use crate::commands::command_named;
use parts::cases::split_counted;
use protocol::command::Request;
use trace::record::Record;

/// The size of a record that is to be put. Its command goes by name, so that it is no record of a
/// trace.
pub const PUT_SIZE: usize = 15;

const HEAD_SIZE: usize = 8;

/// A trace to write: the room of its output, how much of the output is lent to close where it is
/// called for itself, and the records to put.
#[derive(Clone, Copy)]
pub struct Session<'a> {
    pub processors: u8,
    pub room: usize,
    pub lent: usize,
    pub records: &'a [u8],
}

/// A trace to copy, and the room of the output.
#[derive(Clone, Copy)]
pub struct Source<'a> {
    pub trace: &'a [u8],
    pub room: usize,
}

#[derive(Clone, Copy)]
/// What a case does.
pub enum Task<'a> {
    Read(&'a [u8]),
    Write(Session<'a>),
    Copy(Source<'a>),
    WriteAll(Session<'a>),
}

#[derive(Clone, Copy)]
/// A case: its name, and what it does.
pub struct Case<'a> {
    pub name: &'a [u8],
    pub task: Task<'a>,
}

#[derive(Clone, Copy)]
enum Kind {
    Read,
    Write,
    Copy,
    WriteAll,
}

#[derive(Clone, Copy)]
struct UnknownKind;

impl TryFrom<u8> for Kind {
    type Error = UnknownKind;

    fn try_from(letter: u8) -> Result<Kind, UnknownKind> {
        match letter {
            b'R' => Ok(Kind::Read),
            b'W' => Ok(Kind::Write),
            b'C' => Ok(Kind::Copy),
            b'A' => Ok(Kind::WriteAll),
            _ => Err(UnknownKind),
        }
    }
}

// What stands behind a case's name.
#[derive(Clone, Copy)]
struct Head {
    kind: Kind,
    processors: u8,
    room: usize,
    lent: usize,
    length: usize,
}

impl TryFrom<[u8; HEAD_SIZE]> for Head {
    type Error = UnknownKind;

    fn try_from(bytes: [u8; HEAD_SIZE]) -> Result<Head, UnknownKind> {
        let [kind, processors, r0, r1, l0, l1, n0, n1] = bytes;
        Ok(Head {
            kind: Kind::try_from(kind)?,
            processors,
            room: usize::from(u16::from_le_bytes([r0, r1])),
            lent: usize::from(u16::from_le_bytes([l0, l1])),
            length: usize::from(u16::from_le_bytes([n0, n1])),
        })
    }
}

fn session_of(head: Head, body: &[u8]) -> Session<'_> {
    Session {
        processors: head.processors,
        room: head.room,
        lent: head.lent,
        records: body,
    }
}

fn task_of(head: Head, body: &[u8]) -> Task<'_> {
    match head.kind {
        Kind::Read => Task::Read(body),
        Kind::Write => Task::Write(session_of(head, body)),
        Kind::WriteAll => Task::WriteAll(session_of(head, body)),
        Kind::Copy => Task::Copy(Source {
            trace: body,
            room: head.room,
        }),
    }
}

/// The cases of an input, as far as they are whole. Each program has its own: they differ in all
/// that `next` reads behind the name, and one generic type would need a trait and a marker to say
/// the rest.
#[derive(Drop)]
pub struct Cases<'a>(pub &'a [u8]);

impl<'a> Iterator for Cases<'a> {
    type Item = Case<'a>;

    ghost remaining = { λ s. at_most (length s.0.now) };

    fn next(&mut self) -> Option<Case<'a>> {
        let (name, rest) = split_counted(self.0, 1)?;
        let (head, rest) = rest.split_first_chunk::<HEAD_SIZE>()?;
        let head = Head::try_from(*head).ok()?;
        let (body, rest) = rest.split_at_checked(head.length)?;
        self.0 = rest;
        Some(Case {
            name,
            task: task_of(head, body),
        })
    }
}

/// The record that is to be put. A function, as `decode` is.
pub fn record_of(bytes: &[u8]) -> Option<Record> {
    let (stamp, rest) = bytes.split_first_chunk::<4>()?;
    let (processor, rest) = rest.split_first()?;
    let (name, rest) = rest.split_first_chunk::<2>()?;
    let (address, rest) = rest.split_first_chunk::<4>()?;
    let (word, _) = rest.split_first_chunk::<4>()?;
    Some(Record {
        stamp: u32::from_le_bytes(*stamp),
        request: Request {
            processor: *processor,
            command: command_named(*name, u32::from_le_bytes(*word))?,
            address: u32::from_le_bytes(*address),
        },
    })
}
