// The lines that show records, refusals and outputs.
use protocol::refusal::Refusal;
use std::io;
use std::io::Write;
use text::names::command_name;
use trace::record::Record;

/// The line of a record.
pub fn show_record(out: &mut Vec<u8>, record: &Record) -> io::Result<()> {
    let stamp = record.stamp;
    let processor = record.request.processor;
    let address = record.request.address;
    let word = record.request.command.written().unwrap_or(0);
    write!(out, "{stamp:08X} {processor} ")?;
    out.write_all(&command_name(record.request.command))?;
    writeln!(out, " {address:08X} {word:08X}")
}

/// A refusal by its number, and the index where it has one.
pub fn show_refusal(out: &mut Vec<u8>, refusal: Refusal) -> io::Result<()> {
    let number = refusal.number();
    match refusal {
        Refusal::Record(index) => writeln!(out, "refused {number} {index}"),
        _ => writeln!(out, "refused {number}"),
    }
}

/// The name of a refused call, and the refusal.
pub fn show_refused(out: &mut Vec<u8>, call: &str, refusal: Refusal) -> io::Result<()> {
    write!(out, "{call} ")?;
    show_refusal(out, refusal)
}

/// What a put answers.
pub fn show_put(out: &mut Vec<u8>, answer: Result<(), Refusal>) -> io::Result<()> {
    match answer {
        Ok(()) => writeln!(out, "put OK"),
        Err(refusal) => show_refused(out, "put", refusal),
    }
}

/// What a close answers.
pub fn show_close(out: &mut Vec<u8>, answer: Result<usize, Refusal>) -> io::Result<()> {
    match answer {
        Ok(length) => writeln!(out, "closed {length}"),
        Err(refusal) => show_refused(out, "close", refusal),
    }
}

/// What a copy answers.
pub fn show_copy(out: &mut Vec<u8>, answer: Result<usize, Refusal>) -> io::Result<()> {
    match answer {
        Ok(length) => writeln!(out, "copied {length}"),
        Err(refusal) => show_refusal(out, refusal),
    }
}

/// What writing all records in one call answers.
pub fn show_written(out: &mut Vec<u8>, answer: Result<usize, Refusal>) -> io::Result<()> {
    match answer {
        Ok(length) => writeln!(out, "written {length}"),
        Err(refusal) => show_refusal(out, refusal),
    }
}

// Some bytes in one line, with a space behind every fourth but the last.
fn show_row(out: &mut Vec<u8>, row: &[u8]) -> io::Result<()> {
    for (i, byte) in row.iter().enumerate() {
        if i > 0 && i % 4 == 0 {
            write!(out, " ")?;
        }
        write!(out, "{byte:02X}")?;
    }
    out.write_all(b"\n")
}

/// All bytes of an output, sixteen to a line.
pub fn show_output(out: &mut Vec<u8>, output: &[u8]) -> io::Result<()> {
    for row in output.chunks(16) {
        show_row(out, row)?;
    }
    Ok(())
}
