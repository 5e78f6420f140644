// Writing a trace into a lent output, a record at a time.
ghost use Rattle.std.specs.Prelude.{◌≡◌, ◌+◌, ◌*◌, ◌<◌, ◌≤◌, true, List, [], ◌∷◌, ◌++◌, length, take, is_ok, if◌then◌else◌, IfOk, Ok};
ghost use Rattle.std.specs.Result.{result_map_both, result_err};
ghost use Rattle.trace.specs.declared.record.Record.{Record};
ghost use Rattle.trace.specs.Traces.{trace_of};
ghost use Rattle.trace.specs.Writing.{written, trailer_bytes, open_answer, put_refusal, put_rule, close_rule};

use crate::record::{RECORD_SIZE, Record, encode};
use crate::trace::may_follow;
use crate::trailer::{MOST_RECORDS, TRAILER_SIZE, Trailer, may_serve};
use protocol::refusal::Refusal;

/// A trace that is being written. It has numbers only: the processors, the number of records put so
/// far, and the stamp of the last of them, 0 at first. Each call is lent the output.
#[derive(Drop)]
pub struct Writer {
    processors: u8,
    count: usize,
    stamp: u32,
    ghost few: { count ≤ 1048576 },
    ghost served: { (1 ≤ processors) × (processors ≤ 8) },
}

fn put_bytes(output: &mut [u8], at: usize, new: &[u8])
    requires { at + length new.now ≤ length output.old }
    ensures { output.new ≡ written output.old at new.now }
{
    output[at..at + new.len()].copy_from_slice(new);
}

impl Writer {
    ghost use Rattle.trace.specs.Written.{HasPut};

    /// A writer of a new trace for these processors, which has put no records. Nothing is written.
    ///
    /// Refuses with 12 processors that are not 1 to 8, then with 14 an output of under 8 bytes.
    pub fn open(output: &[u8], processors: u8) -> Result<Writer, Refusal>
        ensures answer { result_map_both (λ _. tt) (λ refusal. refusal) result
            ≡ open_answer output.now processors }
        ensures start { IfOk result (λ w.
            (w.processors ≡ processors) × (w.count ≡ 0) × (w.stamp ≡ 0)) }
        ensures holds_none { IfOk result (λ w. HasPut w output.now []) }
    {
        if !may_serve(processors) {
            return Err(Refusal::Trailer);
        }
        if output.len() < TRAILER_SIZE {
            return Err(Refusal::Output);
        }
        Ok(Writer {
            processors,
            count: 0,
            stamp: 0,
        })
    }

    // Whether a record may be put into an output of this length.
    fn check(&self, next: &Record, long: usize) -> Result<(), Refusal>
        ensures value { result_err result
            ≡ put_refusal self.now.processors self.now.count self.now.stamp long next.now }
        ensures few { is_ok result ≡ true → self.now.count < 1048576 }
        ensures room { is_ok result ≡ true → self.now.count * 16 + 24 ≤ long }
    {
        if !may_follow(next, self.processors, self.stamp) || self.count >= MOST_RECORDS {
            return Err(Refusal::Record(self.count as u32));
        }
        if self.count * RECORD_SIZE + RECORD_SIZE + TRAILER_SIZE > long {
            return Err(Refusal::Output);
        }
        Ok(())
    }

    /// Counts a record as put into an output of `long` bytes, or refuses it as `put` does. Its
    /// bytes are the caller's to write.
    pub(crate) fn admit(&mut self, next: &Record, long: usize) -> Result<(), Refusal>
        ensures answer { result_err result
            ≡ put_refusal self.old.processors self.old.count self.old.stamp long next.now }
        ensures count { self.new.count
            ≡ (if is_ok result then self.old.count + 1 else self.old.count) }
        ensures stamp { self.new.stamp
            ≡ (if is_ok result then next.now.stamp else self.old.stamp) }
        ensures processors { self.new.processors ≡ self.old.processors }
        ensures few { is_ok result ≡ true → self.old.count < 1048576 }
        ensures room { is_ok result ≡ true → self.old.count * 16 + 24 ≤ long }
    {
        self.check(next, long)?;
        self.count += 1;
        self.stamp = next.stamp;
        Ok(())
    }

    /// Writes the record's 16 bytes behind those put so far.
    ///
    /// Refuses with 13 a record whose processor is not below the processors, whose stamp is below
    /// the last one's, or that would be record 1,048,577; the index is the number of records put so
    /// far. Then refuses with 14 an output of under 16 x records + 24 bytes, which are those put so
    /// far, the new one and the trailer. A refused put changes nothing.
    pub fn put(&mut self, output: &mut [u8], next: Record) -> Result<(), Refusal>
        ensures answer { result
            ≡ (put_rule self.old.processors self.old.count self.old.stamp output.old next).answer }
        ensures count { self.new.count
            ≡ (put_rule self.old.processors self.old.count self.old.stamp output.old next).count }
        ensures stamp { self.new.stamp
            ≡ (put_rule self.old.processors self.old.count self.old.stamp output.old next).stamp }
        ensures output { output.new
            ≡ (put_rule self.old.processors self.old.count self.old.stamp output.old next).output }
        ensures processors { self.new.processors ≡ self.old.processors }
        ensures holds_more { is_ok result ≡ true → (rs : List Record)
            → HasPut self.old output.old rs → HasPut self.new output.new (rs ++ (next ∷ [])) }
    {
        let at = self.count * RECORD_SIZE;
        self.admit(&next, output.len())?;
        put_bytes(output, at, &encode(next));
        Ok(())
    }

    /// Writes the trailer behind the records. The answer is the trace's length in bytes, which is
    /// 16 x records + 8.
    ///
    /// Refuses with 14, and writes nothing, if the output lent now is shorter.
    pub fn close(self, output: &mut [u8]) -> Result<usize, Refusal>
        ensures answer { result ≡ (close_rule self.processors self.count output.old).answer }
        ensures output { output.new ≡ (close_rule self.processors self.count output.old).output }
        ensures reads_back { (rs : List Record) → HasPut self output.old rs
            → (result ≡ Ok (self.count * 16 + 8))
            × (trace_of (take (self.count * 16 + 8) output.new)
            ≡ Ok (record { processors = self.processors; records = rs })) }
    {
        let size = self.count * RECORD_SIZE;
        if output.len() < size + TRAILER_SIZE {
            return Err(Refusal::Output);
        }
        let trailer = Trailer {
            size: size as u32,
            processors: self.processors,
        };
        put_bytes(output, size, &trailer.encode());
        Ok(size + TRAILER_SIZE)
    }
}
