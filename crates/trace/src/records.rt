// The iterator over the records of a trace.
ghost use Rattle.std.specs.Iterator.{at_most};
ghost use Rattle.trace.specs.Sizes.{records_in};
ghost use Rattle.trace.specs.Records.{Takes};

use crate::record::{RECORD_SIZE, Record, decode};

/// The records of a trace, one after another. It ends where the next sixteen bytes are no record.
#[derive(Drop)]
pub struct Records<'a> {
    pub(crate) bytes: &'a [u8],
}

impl<'a> Iterator for Records<'a> {
    type Item = Record;

    ghost next_gives = { λ s r t. Takes s.bytes.now r t.bytes.now };

    ghost remaining = { λ s. at_most (records_in s.bytes.now) };

    fn next(&mut self) -> Option<Record> {
        let (bytes, rest) = self.bytes.split_first_chunk::<RECORD_SIZE>()?;
        let record = decode(bytes)?;
        self.bytes = rest;
        Some(record)
    }
}
