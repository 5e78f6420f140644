// Reads, writes and copies short traces, and shows what each call answers and what it leaves in the
// output. The input holds the cases one after another, as they stand in files.txt.
#![tactic(auto)]

mod commands;
mod input;
mod lines;

use input::{Cases, PUT_SIZE, Session, Source, Task, record_of};
use lines::{
    show_close, show_copy, show_output, show_put, show_record, show_refusal, show_refused,
    show_written,
};
use parts::cases::put_heading;
use parts::reading::read_all;
use std::alloc::Global;
use std::io;
use std::io::Write;
use trace::copying::copy_trace;
use trace::record::Record;
use trace::trace::Trace;
use trace::writer::Writer;
use trace::writing::write_trace;

// Every byte of an output before anything is written.
const FILL: u8 = 0xEE;

fn show_trace(out: &mut Vec<u8>, trace: &Trace) -> io::Result<()> {
    let processors = trace.processors();
    let count = trace.count();
    writeln!(out, "processors {processors} records {count}")?;
    for record in trace.records() {
        show_record(out, &record)?;
    }
    Ok(())
}

fn read_case(out: &mut Vec<u8>, bytes: &[u8]) -> io::Result<()> {
    match Trace::read(bytes) {
        Ok(trace) => show_trace(out, &trace),
        Err(refusal) => show_refusal(out, refusal),
    }
}

// Puts every record. One that is refused does not stop the others.
fn put_all(
    out: &mut Vec<u8>,
    writer: &mut Writer,
    output: &mut [u8],
    records: &[u8],
) -> io::Result<()> {
    for record in records.chunks_exact(PUT_SIZE).filter_map(record_of) {
        show_put(out, writer.put(output, record))?;
    }
    Ok(())
}

fn write_session(out: &mut Vec<u8>, output: &mut [u8], session: Session) -> io::Result<()> {
    let mut writer = match Writer::open(output, session.processors) {
        Ok(writer) => writer,
        Err(refusal) => return show_refused(out, "open", refusal),
    };
    put_all(out, &mut writer, output, session.records)?;
    let lent = session.lent.min(output.len());
    show_close(out, writer.close(&mut output[0..lent]))
}

fn write_case(heap: Global, out: &mut Vec<u8>, session: Session) -> io::Result<()> {
    let mut output = vec![in heap; FILL; session.room]?;
    write_session(out, &mut output, session)?;
    show_output(out, &output)
}

// The records in one call.
fn write_all_case(heap: Global, out: &mut Vec<u8>, session: Session) -> io::Result<()> {
    let mut output = vec![in heap; FILL; session.room]?;
    let records: Vec<Record> = session
        .records
        .chunks_exact(PUT_SIZE)
        .filter_map(record_of)
        .collect(heap)?;
    show_written(out, write_trace(&mut output, session.processors, &records))?;
    show_output(out, &output)
}

fn copy_case(heap: Global, out: &mut Vec<u8>, source: Source) -> io::Result<()> {
    let mut output = vec![in heap; FILL; source.room]?;
    show_copy(out, copy_trace(source.trace, &mut output))?;
    show_output(out, &output)
}

fn play(heap: Global, out: &mut Vec<u8>, task: Task) -> io::Result<()> {
    match task {
        Task::Read(bytes) => read_case(out, bytes),
        Task::Write(session) => write_case(heap, out, session),
        Task::Copy(source) => copy_case(heap, out, source),
        Task::WriteAll(session) => write_all_case(heap, out, session),
    }
}

fn list_all(heap: Global, input: &[u8]) -> io::Result<Vec<u8>> {
    let mut out = Vec::new(heap);
    for case in Cases(input) {
        put_heading(&mut out, case.name)?;
        play(heap, &mut out, case.task)?;
    }
    Ok(out)
}

fn main(rt: HostRuntime) -> io::Result<()> {
    let heap = rt.alloc();
    let input = read_all(heap, rt.stdin())?;
    rt.stdout().write_all(&list_all(heap, &input)?)
}
