// Judging a listing, and telling what a trace is.
use crate::failure::trace_refused;
use anyhow::Result;
use judging::checking::{Checked, Overview, check};
use judging::comparing::{Difference, Verdict, line_at};
use judging::fields::text_of;
use judging::judging::Judgement;
use protocol::refusal::Refusal;
use std::alloc::Global;
use std::io::Write;
use trace::trace::Trace;

/// What bytes that are no trace are refused with, and the rule that they break.
fn refused_as(checked: Checked) -> anyhow::Error {
    match checked {
        Checked::Record(index, fault) => trace_refused(Refusal::Record(index), fault.text()),
        Checked::Trailer(fault) => trace_refused(Refusal::Trailer, fault.text()),
        Checked::Trace(_) => trace_refused(Refusal::Trailer, "no trace"),
    }
}

/// The trace that the bytes are, or the rule that they break.
pub fn read_trace(bytes: &[u8]) -> Result<Trace<'_>> {
    Trace::read(bytes).map_err(|_| refused_as(check(bytes)))
}

fn put_stamp(out: &mut Vec<u8>, name: &str, stamp: Option<u32>) -> Result<()> {
    match stamp {
        Some(stamp) => writeln!(out, "{name} {stamp}")?,
        None => writeln!(out, "{name} none")?,
    }
    Ok(())
}

fn put_overview(out: &mut Vec<u8>, overview: &Overview) -> Result<()> {
    writeln!(out, "processors {}", overview.processors)?;
    writeln!(out, "records {}", overview.records)?;
    writeln!(out, "note bytes {}", overview.note)?;
    put_stamp(out, "first stamp", overview.first)?;
    put_stamp(out, "last stamp", overview.last)
}

/// What a trace is.
pub fn told(heap: Global, bytes: &[u8]) -> Result<Vec<u8>> {
    match check(bytes) {
        Checked::Trace(overview) => {
            let mut out = Vec::new(heap);
            put_overview(&mut out, &overview)?;
            Ok(out)
        }
        other => Err(refused_as(other)),
    }
}

// A line of a listing, or that it has none there.
fn put_line(out: &mut Vec<u8>, whose: &str, listing: &[u8], start: usize) -> Result<()> {
    write!(out, "{whose:<8}")?;
    match line_at(listing, start) {
        Some(line) => out.write_all(text_of(line))?,
        None => write!(out, "(no line)")?,
    }
    writeln!(out)?;
    Ok(())
}

/// What is said of a listing that was judged.
pub fn verdict(heap: Global, judgement: &Judgement, theirs: &[u8]) -> Result<Vec<u8>> {
    let mut out = Vec::new(heap);
    match judgement.verdict {
        Verdict::Agree => writeln!(out, "agree: {} steps", judgement.steps)?,
        Verdict::Differ(Difference { line, start, field }) => {
            writeln!(out, "differ: line {line}, {}", field.name())?;
            put_line(&mut out, "ours:", &judgement.ours, start)?;
            put_line(&mut out, "theirs:", theirs, start)?;
        }
    }
    Ok(out)
}
