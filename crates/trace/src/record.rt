// A record and its sixteen bytes.
ghost use Rattle.std.specs.Prelude.{◌≡◌, IfSome, Some};
ghost use Rattle.trace.specs.Records.{code_of, data_of, command_for, encoded, decoded};

use protocol::command::{Command, Request};

/// The bytes of a record.
pub const RECORD_SIZE: usize = 16;

/// A record of a trace: a request, and when it was made.
#[derive(Clone, Copy)]
pub struct Record {
    /// The stamps of a trace never fall.
    pub stamp: u32,
    pub request: Request,
}

// A command that writes no word has data 0. As with `code_of`, no TryFrom.
fn command_of(code: u8, word: u32) -> Option<Command>
    ensures { result ≡ command_for code word }
{
    match code {
        1 => Some(Command::W(word)),
        2 => Some(Command::DW(word)),
        7 => Some(Command::UW(word)),
        _ if word != 0 => None,
        0 => Some(Command::R),
        3 => Some(Command::RI),
        4 => Some(Command::RP),
        5 => Some(Command::RB),
        6 => Some(Command::LR),
        8 => Some(Command::U),
        _ => None,
    }
}

// No From or TryFrom: the codes are this format's, and Command and u8 are both of other crates.
fn code_of(command: Command) -> u8
    ensures { result ≡ code_of command }
{
    match command {
        Command::R => 0,
        Command::W(_) => 1,
        Command::DW(_) => 2,
        Command::RI => 3,
        Command::RP => 4,
        Command::RB => 5,
        Command::LR => 6,
        Command::UW(_) => 7,
        Command::U => 8,
    }
}

// The word that a command writes; 0 for the others.
fn data_of(command: Command) -> u32
    ensures { result ≡ data_of command }
{
    command.written().unwrap_or(0)
}

// No From, nor TryFrom for `decode`: `encode(next)` says more at a call, and an error could tell
// only that there is no record.
/// The sixteen bytes of a record: stamp (4), processor (1), code of the command (1), two zero
/// bytes, address (4), data (4). Each number stands lowest byte first. Data is the word that the
/// command writes, 0 where it writes none.
pub fn encode(put: Record) -> [u8; 16]
    ensures value { result ≡ encoded put }
    ensures back { decoded result ≡ Some put }
{
    let Request {
        processor,
        command,
        address,
    } = put.request;
    let code = code_of(command);
    let [s0, s1, s2, s3] = put.stamp.to_le_bytes();
    let [a0, a1, a2, a3] = address.to_le_bytes();
    let [d0, d1, d2, d3] = data_of(command).to_le_bytes();
    [
        s0, s1, s2, s3, processor, code, 0, 0, a0, a1, a2, a3, d0, d1, d2, d3,
    ]
}

/// The record that these bytes are, if they are the sixteen bytes of one.
pub fn decode(bytes: &[u8]) -> Option<Record>
    ensures value { result ≡ decoded bytes.now }
    ensures back { IfSome result (λ got. encoded got ≡ bytes.now) }
{
    let (&[stamp, [processor, code, 0, 0], address, data], []) = bytes.as_chunks::<4>() else {
        return None;
    };
    let command = command_of(code, u32::from_le_bytes(data))?;
    let address = u32::from_le_bytes(address);
    Some(Record {
        stamp: u32::from_le_bytes(stamp),
        request: Request {
            processor,
            command,
            address,
        },
    })
}
