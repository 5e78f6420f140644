// The census of a trace's run, over any geometry and memory, and for the census program.
ghost use Rattle.std.specs.Prelude.{◌≡◌, ◌++◌, List, length, replicate, IfOk, OnOk};
ghost use Rattle.protocol.specs.declared.lock.LockEntry.{LockEntry};
ghost use Rattle.protocol.specs.Places.{line_count};
ghost use Rattle.memory.specs.Words.{table_of};
ghost use Rattle.cluster.specs.Board.{board_of};
ghost use Rattle.text.specs.Lines.{refusal_line};
ghost use Rattle.trace.specs.Traces.{records_of};
ghost use Rattle.run.specs.Board.{listing_measures};
ghost use Rattle.run.specs.Running.{end_of};
ghost use Rattle.counting.specs.Report.{report_of, counting_on, counting_of};

use crate::report::{put_drained, put_modified, put_rows};
use cluster::cluster::Cluster;
use memory::memory::Memory;
use memory::word_table::WordTable;
use protocol::geometry::Geometry;
use protocol::line::Line;
use protocol::lock::LockEntry;
use protocol::refusal::Refusal;
use run::board::Board;
use run::listing::{MEMORY_WORDS, listing_geometry, read_listed};
use run::watching::{Unwatched, run_watched};
use std::alloc::{AllocError, Global};
use text::lines::{put_last, put_refusal};
use trace::trace::Trace;
use upkeep::census::census;
use upkeep::drain::drain;

// The cluster and its tables stand as a run left them.
fn put_report<M: Memory>(
    out: &mut Vec<u8>,
    cluster: &Cluster,
    lines: &mut [Line],
    memory: &mut M,
) -> Result<(), AllocError>
    requires { length lines.old ≡ line_count cluster.now.geometry.measures }
    ensures report { (locks : List LockEntry) →
        let board = board_of cluster.now lines.old locks (M.model memory.old) in
        let report = report_of cluster.now.geometry.measures board in
        OnOk result (out.new.items ≡ out.old.items ++ report) }
    ensures kept { M.standing memory.new ≡ M.standing memory.old }
{
    let mut rows = [[0; 5]; 8];
    // The line table is as long as the geometry asks for, so nothing is refused.
    let _ = census(cluster, lines, &mut rows);
    put_last(out, b"P EM   EC   SM   S    I")?;
    put_rows(out, &rows, cluster.geometry().processors())?;
    put_modified(out, &rows)?;
    put_drained(out, &drain(cluster, lines, memory))
}

// The census of a trace's run on a cluster and a memory as they are.
fn count_run<M: Memory>(
    heap: Global,
    cluster: &mut Cluster,
    lines: &mut [Line],
    locks: &mut [LockEntry],
    memory: &mut M,
    trace: Trace,
) -> Result<Vec<u8>, AllocError>
    requires { length lines.old ≡ line_count cluster.old.geometry.measures }
    ensures counting { let before = board_of cluster.old lines.old locks.old (M.model memory.old) in
        let records = records_of trace.entry.records.now in
        let end = end_of cluster.old.geometry.measures before records in
        IfOk result (λ out. out.items ≡ report_of cluster.old.geometry.measures end.board) }
    ensures kept { OnOk result (M.standing memory.new ≡ M.standing memory.old) }
{
    run_watched(cluster, lines, locks, memory, trace, &mut Unwatched)?;
    let mut out = Vec::new(heap);
    put_report(&mut out, cluster, lines, memory)?;
    Ok(out)
}

/// The census of a trace's run on a new cluster of a geometry, over a memory: a row of EM, EC, SM,
/// S and I for each processor, the lines in EM and SM, and what a drain then writes: blocks and bus
/// cycles, or the number of the refusal that stopped it. Only want of memory is an error.
pub fn count_trace<M: Memory>(
    heap: Global,
    geometry: Geometry,
    memory: &mut M,
    trace: Trace,
) -> Result<Vec<u8>, AllocError>
    ensures counting { let records = records_of trace.entry.records.now in
        let counting = counting_on geometry.measures (M.model memory.old) records in
        IfOk result (λ out. out.items ≡ counting) }
    ensures kept { OnOk result (M.standing memory.new ≡ M.standing memory.old) }
{
    let mut board = Board::new(heap, geometry)?;
    count_run(
        heap,
        &mut board.cluster,
        &mut board.lines,
        &mut board.locks,
        memory,
        trace,
    )
}

// The run of a trace over a new cluster and zero words.
fn count_read(heap: Global, trace: Trace) -> Result<Vec<u8>, AllocError>
    ensures { let measures = listing_measures trace.entry.processors in
        let records = records_of trace.entry.records.now in
        let counting = counting_on measures (table_of (replicate 1024 0)) records in
        IfOk result (λ out. out.items ≡ counting) }
{
    let mut words = [0; MEMORY_WORDS];
    let mut memory = WordTable::new(&mut words);
    count_trace(heap, listing_geometry(&trace), &mut memory, trace)
}

// The line of an input that is no trace.
fn count_refusal(heap: Global, refusal: Refusal) -> Result<Vec<u8>, AllocError>
    ensures { IfOk result (λ out. out.items ≡ refusal_line refusal) }
{
    let mut out = Vec::new(heap);
    put_refusal(&mut out, refusal)?;
    Ok(out)
}

/// What the census program writes for an input: the census of the run of the trace that it is, on
/// the cluster and the memory of a listing, or the line of its refusal, 12 or 13. Only want of
/// memory is an error.
pub fn count(heap: Global, input: &[u8]) -> Result<Vec<u8>, AllocError>
    ensures { IfOk result (λ out. out.items ≡ counting_of input.now) }
{
    match read_listed(input) {
        Ok(trace) => count_read(heap, trace),
        Err(refusal) => count_refusal(heap, refusal),
    }
}
