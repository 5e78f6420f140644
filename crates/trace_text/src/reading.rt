// Reading the text of a trace.
ghost use Rattle.std.specs.Prelude.{◌≡◌, IfOk};
ghost use Rattle.std.specs.Result.{result_map_both};
ghost use Rattle.trace_text.specs.Left.{lines_left};
ghost use Rattle.trace_text.specs.Lines.{fields_of};
ghost use Rattle.trace_text.specs.Texts.{next_record, records_in, parsed};
ghost use Rattle.trace_text.specs.Reading.{content_in, MayBeWritten};

use crate::header::header_in;
use crate::lines::{Line, Lines};
use crate::records::record_in;
use std::alloc::{AllocError, Global};
use trace::record::Record;
use trace::trailer::MOST_RECORDS;

/// What the text of a trace tells: its processors and its records.
#[derive(Drop)]
pub struct TraceRecords {
    pub processors: u8,
    pub records: Vec<Record>,
}

// The record that a line is behind so many records.
fn next_record(line: &Line, processors: u8, last: u32, count: usize) -> Option<Record>
    ensures { result ≡ next_record processors last count (fields_of line.now.text.now) }
{
    if count < MOST_RECORDS {
        record_in(line.text, processors, last)
    } else {
        None
    }
}

// The records that the lines left are, or the number of the first line that is none.
fn read_records(
    heap: Global,
    mut lines: Lines,
    processors: u8,
) -> Result<Result<Vec<Record>, usize>, AllocError>
    ensures { IfOk result (λ read. result_map_both (λ v. v.items) (λ n. n) read
        ≡ records_in processors 0 0 (lines_left lines.entry)) }
{
    let mut records = Vec::new(heap);
    let mut last = 0;
    while let Some(line) = lines.next_written() {
        match next_record(&line, processors, last, records.len()) {
            Some(record) => {
                last = record.stamp;
                records.push(record)?;
            }
            None => return Ok(Err(line.number)),
        }
    }
    Ok(Ok(records))
}

/// The processors and the records that a text is, or the number of its first wrong line, counted from 1;
/// without a header that is the line behind the last. The only error is want of memory.
pub fn read_text(heap: Global, text: &[u8]) -> Result<Result<TraceRecords, usize>, AllocError>
    ensures value { IfOk result (λ read.
        result_map_both content_in (λ n. n) read ≡ parsed text.now) }
    ensures may_be_written { IfOk result (λ read. IfOk read MayBeWritten) }
{
    let mut lines = Lines::of(text);
    let Some(first) = lines.next_written() else {
        return Ok(Err(lines.number()));
    };
    let Some(processors) = header_in(first.text) else {
        return Ok(Err(first.number));
    };
    let read = read_records(heap, lines, processors)?;
    Ok(read.map(|records| TraceRecords {
        processors,
        records,
    }))
}
