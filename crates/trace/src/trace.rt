// Reading a trace from bytes that hold a note, records and a trailer.
ghost use Rattle.std.specs.Prelude.{◌≡◌, ◌+◌, ◌-◌, ◌*◌, ◌≤◌, ◌++◌, length, take, drop, IfSome, IfOk, None};
ghost use Rattle.std.specs.Result.{result_map_both};
ghost use Rattle.trace.specs.Sizes.{records_in};
ghost use Rattle.trace.specs.Records.{decoded, encoded};
ghost use Rattle.trace.specs.Traces.{follows, lawful_record, wrong_from, next_of, content_of, trace_of};
ghost use Rattle.trace.specs.Writing.{trailer_bytes};

use crate::record::{RECORD_SIZE, Record, decode};
use crate::records::Records;
use crate::trailer::Trailer;
pub use crate::trailer::{MOST_RECORDS, TRAILER_SIZE, VERSION};
use protocol::refusal::Refusal;

// The bytes are as they were lent, since the contracts speak of them.
/// A trace that was read: lawful records, at most 1,048,576, for 1 to 8 processors.
#[derive(Clone, Copy)]
pub struct Trace<'a> {
    records: &'a [u8],
    processors: u8,
    ghost sound: { wrong_from processors 0 0 (records_in records.now) records.now ≡ None },
    ghost whole: { length records.now ≡ records_in records.now * 16 },
    ghost few: { records_in records.now ≤ 1048576 },
    ghost served: { (1 ≤ processors) × (processors ≤ 8) },
}

// Whether a record may stand behind one with this stamp.
pub(crate) fn may_follow(next: &Record, processors: u8, stamp: u32) -> bool
    ensures { result ≡ follows processors stamp next.now }
{
    next.request.processor < processors && stamp <= next.stamp
}

fn lawful_record(bytes: &[u8], processors: u8, stamp: u32) -> Option<Record>
    ensures { result ≡ lawful_record processors stamp bytes.now }
{
    decode(bytes).filter(|next| may_follow(next, processors, stamp))
}

// The index of the first record that breaks a rule, if one does. By `chunks_exact` and `enumerate`
// reading a long trace took over one and a half times as long.
fn first_wrong(records: &[u8], processors: u8) -> Option<u32>
    requires { records_in records.now ≤ 1048576 }
    ensures { result ≡ wrong_from processors 0 0 (records_in records.now) records.now }
{
    let mut stamp = 0;
    for i in 0..records.len() / RECORD_SIZE {
        let at = i * RECORD_SIZE;
        match lawful_record(&records[at..at + RECORD_SIZE], processors, stamp) {
            Some(next) => stamp = next.stamp,
            None => return Some(i as u32),
        }
    }
    None
}

impl<'a> Trace<'a> {
    /// The trace that the bytes are: a note of any length, the records of 16 bytes each, and the
    /// trailer in the last 8 bytes.
    ///
    /// Refuses with 12 fewer than 8 bytes or a wrong trailer, then with 13 and the index from 0 of
    /// the first wrong record.
    pub fn read(bytes: &'a [u8]) -> Result<Trace<'a>, Refusal>
        ensures value { result_map_both (λ t. content_of t.processors t.records.now)
            (λ refusal. refusal) result ≡ trace_of bytes.now }
        ensures last_bytes { IfOk result (λ t.
            t.records.now ++ trailer_bytes (length t.records.now) t.processors
            ≡ drop (length bytes.now - (length t.records.now + 8)) bytes.now) }
        ensures sound { IfOk result (λ t.
            wrong_from t.processors 0 0 (records_in t.records.now) t.records.now ≡ None) }
        ensures whole { IfOk result (λ t. length t.records.now ≡ records_in t.records.now * 16) }
        ensures few { IfOk result (λ t. records_in t.records.now ≤ 1048576) }
        ensures lawful { IfOk result (λ t. (1 ≤ t.processors) × (t.processors ≤ 8)) }
    {
        let trailer = Trailer::decode(bytes).ok_or(Refusal::Trailer)?;
        let end = bytes.len() - TRAILER_SIZE;
        let records = &bytes[end - trailer.size as usize..end];
        match first_wrong(records, trailer.processors) {
            Some(index) => Err(Refusal::Record(index)),
            None => Ok(Trace {
                records,
                processors: trailer.processors,
            }),
        }
    }

    /// The processors that the trace is for, 1 to 8.
    pub fn processors(&self) -> u8
        ensures { result ≡ self.now.processors }
    {
        self.processors
    }

    /// The number of records.
    pub fn count(&self) -> usize
        ensures { result ≡ records_in self.now.records.now }
    {
        self.records.len() / RECORD_SIZE
    }

    /// The record at an index from 0, if there is one.
    pub fn record(&self, index: usize) -> Option<Record>
        ensures value { result ≡ decoded (take 16 (drop (index * 16) self.now.records.now)) }
        ensures back { IfSome result (λ got.
            encoded got ≡ take 16 (drop (index * 16) self.now.records.now)) }
    {
        let (records, _) = self.records.as_chunks::<RECORD_SIZE>();
        decode(records.get(index)?)
    }

    /// The records in order.
    pub fn records(&self) -> Records<'a>
        ensures { result.bytes.now ≡ self.now.records.now }
    {
        Records {
            bytes: self.records,
        }
    }

    // No `Option`: a run compares the index with those of the other processors.
    /// The index of the processor's first record from an index on, or the number of records where
    /// there is none.
    pub fn next_of(&self, processor: u8, from: usize) -> usize
        ensures value { result ≡ next_of processor from self.now.records.now }
        ensures later { from ≤ records_in self.now.records.now → from ≤ result }
        ensures bound { result ≤ records_in self.now.records.now }
    {
        let (records, _) = self.records.as_chunks::<RECORD_SIZE>();
        (from..records.len())
            .find(|&i| records[i][4] == processor)
            .unwrap_or(records.len())
    }
}
