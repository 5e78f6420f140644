// Copying a trace: read from one place, written again in another.
ghost use Rattle.std.specs.Prelude.{◌≡◌};
ghost use Rattle.trace.specs.Writing.{copy_rule};

use crate::record::RECORD_SIZE;
use crate::trace::Trace;
use crate::trailer::TRAILER_SIZE;
use crate::writer::Writer;
use protocol::refusal::Refusal;

/// Copies the trace in the input, without its note, to the start of the output. The answer is the
/// copy's length in bytes, which is 16 x records + 8.
///
/// Refuses with 12 or 13 an input that is no trace, then with 14 an output that is too short; the
/// output is then as it was.
pub fn copy_trace(input: &[u8], output: &mut [u8]) -> Result<usize, Refusal>
    ensures answer { result ≡ (copy_rule input.now output.old).answer }
    ensures output { output.new ≡ (copy_rule input.now output.old).output }
{
    let trace = Trace::read(input)?;
    if output.len() < trace.count() * RECORD_SIZE + TRAILER_SIZE {
        return Err(Refusal::Output);
    }
    let mut writer = Writer::open(output, trace.processors())?;
    for record in trace.records() {
        writer.put(output, record)?;
    }
    writer.close(output)
}
