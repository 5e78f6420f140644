// Writing records as a trace in one call.
ghost use Rattle.std.specs.Prelude.{◌≡◌, [], IfOk, Ok, take};
ghost use Rattle.std.specs.Result.{result_map_both};
ghost use Rattle.trace.specs.Traces.{trace_of};
ghost use Rattle.trace.specs.Written.{HasPut};
ghost use Rattle.trace.specs.Writing.{admission, write_rule};

use crate::record::Record;
use crate::writer::Writer;
use protocol::refusal::Refusal;

// A writer of a new trace that these records may all be put into, in turn; else the first refusal.
fn admit_all(output: &[u8], processors: u8, records: &[Record]) -> Result<Writer, Refusal>
    ensures answer { result_map_both (λ _. tt) (λ refusal. refusal) result
        ≡ admission output.now processors records.now }
    ensures start { IfOk result (λ w. (w.processors ≡ processors) × (w.count ≡ 0) × (w.stamp ≡ 0)) }
    ensures holds_none { IfOk result (λ w. HasPut w output.now []) }
{
    let mut trial = Writer::open(output, processors)?;
    for next in records {
        trial.admit(next, output.len())?;
    }
    Writer::open(output, processors)
}

/// Writes the trace of these records at the start of the output. The answer is its length in
/// bytes, which is 16 x records + 8.
///
/// Refuses as `Writer::open` does, with 12 or 14, then as `Writer::put` does at the first record
/// that may not be put, with 13 or 14. All are tried before the first is written, so that a refused
/// call leaves the output as it was.
pub fn write_trace(output: &mut [u8], processors: u8, records: &[Record]) -> Result<usize, Refusal>
    ensures answer { result ≡ (write_rule output.old processors records.now).answer }
    ensures output { output.new ≡ (write_rule output.old processors records.now).output }
    ensures reads_back { IfOk result (λ n. trace_of (take n output.new)
        ≡ Ok (record { processors = processors; records = records.now })) }
{
    let mut writer = admit_all(output, processors, records)?;
    for record in records {
        writer.put(output, *record)?;
    }
    writer.close(output)
}
