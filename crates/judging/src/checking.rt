// A trace held against the rules of its format.
ghost use Rattle.std.specs.Prelude.{◌≡◌, ◌+◌, ◌*◌, ◌≤◌, length};
ghost use Rattle.trace.specs.Traces.{records_of, content_of, trace_of};
ghost use Rattle.judging.specs.Rules.{size_said};
ghost use Rattle.judging.specs.Checks.{stamp_of, overview_of, record_place, stamp_before, fault_at, checked_of, AgreesWith, BreaksRule};

use crate::faults::{RecordFault, TrailerFault, number_at, record_fault, trailer_fault};
use protocol::refusal::Refusal;
use trace::record::RECORD_SIZE;
use trace::trace::{TRAILER_SIZE, Trace};

/// What there is to say of a trace.
#[derive(Clone, Copy)]
pub struct Overview {
    /// The processors that the trace is for, 1 to 8.
    pub processors: u8,
    /// The number of records.
    pub records: usize,
    /// The bytes of the note, which stands before the first record.
    pub note: usize,
    /// The stamp of the first record, if there is one.
    pub first: Option<u32>,
    /// The stamp of the last record, if there is one.
    pub last: Option<u32>,
}

/// What bytes are: a trace, or the first rule of the format that they break.
#[derive(Clone, Copy)]
pub enum Checked {
    Trace(Overview),
    /// Reading refuses the bytes with 12.
    Trailer(TrailerFault),
    /// Reading refuses the bytes with 13 and the index, from 0, of the wrong record.
    Record(u32, RecordFault),
}

fn stamp_at(trace: &Trace, index: usize) -> Option<u32>
    ensures { result ≡ stamp_of (records_of trace.now.records.now) index }
{
    trace.record(index).map(|record| record.stamp)
}

// Of a trace that was read from so many bytes. One without records has no record 0 either.
fn overview_of(trace: &Trace, size: usize) -> Overview
    requires { length trace.now.records.now + 8 ≤ size }
    ensures { result ≡ overview_of size (content_of trace.now.processors trace.now.records.now) }
{
    let records = trace.count();
    Overview {
        processors: trace.processors(),
        records,
        note: size - (records * RECORD_SIZE + TRAILER_SIZE),
        first: stamp_at(trace, 0),
        last: stamp_at(trace, records.saturating_sub(1)),
    }
}

// Where a record begins that the bytes before the trailer hold.
fn record_place(bytes: &[u8], index: usize) -> usize
    requires held { size_said bytes.now + 8 ≤ length bytes.now }
    requires inside { index * 16 + 16 ≤ size_said bytes.now }
    ensures place { result ≡ record_place bytes.now index }
    ensures room { result + 24 ≤ length bytes.now }
{
    let end = bytes.len() - TRAILER_SIZE;
    end - number_at(bytes, end) as usize + index * RECORD_SIZE
}

fn stamp_before(bytes: &[u8], index: usize) -> u32
    requires held { size_said bytes.now + 8 ≤ length bytes.now }
    requires inside { index * 16 + 16 ≤ size_said bytes.now }
    ensures { result ≡ stamp_before bytes.now index }
{
    if index == 0 {
        return 0;
    }
    number_at(bytes, record_place(bytes, index - 1))
}

fn fault_at(bytes: &[u8], index: usize) -> RecordFault
    requires held { size_said bytes.now + 8 ≤ length bytes.now }
    requires inside { index * 16 + 16 ≤ size_said bytes.now }
    ensures { result ≡ fault_at bytes.now index }
{
    let at = record_place(bytes, index);
    let processors = bytes[bytes.len() - TRAILER_SIZE + 5];
    record_fault(
        &bytes[at..at + RECORD_SIZE],
        processors,
        stamp_before(bytes, index),
    )
}

/// Checks bytes against the rules of a trace. A trailer's rules come before those of the records.
pub fn check(bytes: &[u8]) -> Checked
    ensures checked { result ≡ checked_of bytes.now }
    ensures reading { AgreesWith (trace_of bytes.now) result }
    ensures broken { BreaksRule bytes.now result }
{
    match Trace::read(bytes) {
        Ok(trace) => Checked::Trace(overview_of(&trace, bytes.len())),
        Err(refusal) => match refusal {
            Refusal::Record(index) => Checked::Record(index, fault_at(bytes, index as usize)),
            _ => Checked::Trailer(trailer_fault(bytes)),
        },
    }
}
