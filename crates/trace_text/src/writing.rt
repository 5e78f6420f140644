// Writing the text of a trace.
ghost use Rattle.std.specs.Prelude.{◌≡◌, IfOk, Ok};
ghost use Rattle.trace.specs.Traces.{content_of};
ghost use Rattle.trace_text.specs.Texts.{text_of, parsed};

use crate::header::put_header;
use crate::records::put_record;
use std::alloc::{AllocError, Global};
use trace::trace::Trace;

/// The text of a trace, in bytes: a line for the version and the processors, then a line a record.
/// The only error is want of memory.
pub fn write_text(heap: Global, trace: &Trace) -> Result<Vec<u8>, AllocError>
    ensures text { IfOk result (λ text. text.items
        ≡ text_of (content_of trace.now.processors trace.now.records.now)) }
    ensures reads_back { IfOk result (λ text. parsed text.items
        ≡ Ok (content_of trace.now.processors trace.now.records.now)) }
{
    let mut text = Vec::new(heap);
    put_header(&mut text, trace.processors())?;
    for record in trace.records() {
        put_record(&mut text, &record)?;
    }
    Ok(text)
}
