// The rules of a trace that bytes can break, and the first that they break.
ghost use Rattle.std.specs.Prelude.{◌≡◌, ◌+◌, ◌≤◌, length};
ghost use Rattle.trace.specs.Records.{number_at};
ghost use Rattle.judging.specs.Rules.{trailer_fault, record_fault, trailer_told, record_told};

use trace::record::RECORD_SIZE;
use trace::trace::{MOST_RECORDS, TRAILER_SIZE, VERSION};

/// The first rule of a trailer that is broken, in this order.
#[derive(Clone, Copy)]
pub enum TrailerFault {
    /// The input has fewer than 8 bytes.
    Short,
    /// The version is not 1.
    Version,
    /// The byte count of the records is not a multiple of 16.
    PartRecord,
    /// The byte count is that of more than 1,048,576 records.
    TooMany,
    /// The byte count is more than the bytes before the trailer.
    Missing,
    /// The processors are not 1 to 8.
    Processors,
    /// The last two bytes are not both 0.
    ZeroBytes,
}

/// The first rule of a record that is broken, in this order.
#[derive(Clone, Copy)]
pub enum RecordFault {
    /// The two zero bytes are not both 0.
    ZeroBytes,
    /// The command's code is over 8.
    Command,
    /// There is data, and the command is not W, DW or UW.
    Data,
    /// The processor is not below the processors of the trace.
    Processor,
    /// The stamp is lower than that of the record before.
    Stamp,
}

impl TrailerFault {
    /// The fault for people.
    pub fn text(self) -> &'static str
        ensures { result.now ≡ trailer_told self }
    {
        match self {
            TrailerFault::Short => "fewer than 8 bytes",
            TrailerFault::Version => "version not 1",
            TrailerFault::PartRecord => "byte count of the records not a multiple of 16",
            TrailerFault::TooMany => "more than 1048576 records",
            TrailerFault::Missing => "more bytes of records than the input holds",
            TrailerFault::Processors => "processors not 1 to 8",
            TrailerFault::ZeroBytes => "last two bytes not 0",
        }
    }
}

impl RecordFault {
    /// The fault for people.
    pub fn text(self) -> &'static str
        ensures { result.now ≡ record_told self }
    {
        match self {
            RecordFault::ZeroBytes => "zero bytes not 0",
            RecordFault::Command => "no such command code",
            RecordFault::Data => "data of a command that writes no word",
            RecordFault::Processor => "processor not below those of the trace",
            RecordFault::Stamp => "stamp lower than the one before",
        }
    }
}

// The last two bytes are at fault where no rule before them is broken.
pub(crate) fn trailer_fault(bytes: &[u8]) -> TrailerFault
    ensures { result ≡ trailer_fault bytes.now }
{
    let Some((front, last)) = bytes.split_last_chunk::<TRAILER_SIZE>() else {
        return TrailerFault::Short;
    };
    let &[s0, s1, s2, s3, version, processors, _, _] = last;
    let size = u32::from_le_bytes([s0, s1, s2, s3]) as usize;
    if version != VERSION {
        TrailerFault::Version
    } else if size % RECORD_SIZE != 0 {
        TrailerFault::PartRecord
    } else if size > RECORD_SIZE * MOST_RECORDS {
        TrailerFault::TooMany
    } else if size > front.len() {
        TrailerFault::Missing
    } else if !(1..=8).contains(&processors) {
        TrailerFault::Processors
    } else {
        TrailerFault::ZeroBytes
    }
}

// Four bytes, the lowest first.
pub(crate) fn number_at(bytes: &[u8], at: usize) -> u32
    requires { at + 4 ≤ length bytes.now }
    ensures { result ≡ number_at bytes.now at }
{
    u32::from_le_bytes([bytes[at], bytes[at + 1], bytes[at + 2], bytes[at + 3]])
}

// The stamp is at fault where no rule before it is broken.
pub(crate) fn record_fault(bytes: &[u8], processors: u8, stamp: u32) -> RecordFault
    requires { length bytes.now ≡ 16 }
    ensures { result ≡ record_fault processors stamp bytes.now }
{
    if bytes[6] != 0 || bytes[7] != 0 {
        RecordFault::ZeroBytes
    } else if bytes[5] > 8 {
        RecordFault::Command
    } else if !matches!(bytes[5], 1 | 2 | 7) && number_at(bytes, 12) != 0 {
        RecordFault::Data
    } else if bytes[4] >= processors {
        RecordFault::Processor
    } else {
        RecordFault::Stamp
    }
}
