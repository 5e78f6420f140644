// The listing of a trace: a line for each step, the total, and what is left.
ghost use Rattle.std.specs.Prelude.{◌≡◌, ◌++◌, if◌then◌else◌, length, nat_lt, Err, IfOk, OnOk};
ghost use Rattle.std.specs.Result.{result_map_both};
ghost use Rattle.cluster.specs.Board.{board_of};
ghost use Rattle.trace.specs.Traces.{records_of, content_of, trace_of};
ghost use Rattle.text.specs.Lines.{line_of, refusal_line};
ghost use Rattle.run.specs.Board.{listing_measures};
ghost use Rattle.run.specs.Listing.{all_lines, listing_on, run_lines, listing_of};
ghost use Rattle.run.specs.Running.{started};

use crate::board::Board;
use crate::watching::{Watch, run_watched};
use cluster::cluster::Cluster;
use memory::memory::Memory;
use memory::word_table::WordTable;
use protocol::geometry::Geometry;
use protocol::line::Line;
use protocol::lock::LockEntry;
use protocol::measures::{Costs, Measures};
use protocol::refusal::Refusal;
use std::alloc::{AllocError, Global};
use text::lines::{put_refusal, put_step, put_summary};
use text::step::Step;
use trace::trace::Trace;

/// The most bytes that the listing program takes.
pub const MOST_INPUT: usize = 65_536;

/// One byte more than a listing takes, so that a longer input is seen to be one.
pub const MOST_READ: u64 = MOST_INPUT as u64 + 1;

/// The words of the memory that the listing program runs over.
pub const MEMORY_WORDS: usize = 1_024;

// The lines of a listing, as far as they are made.
#[derive(Drop)]
struct Lines {
    out: Vec<u8>,
}

impl Watch for Lines {
    ghost sees = { λ before step after. after.out.items ≡ before.out.items ++ line_of step };

    fn see(&mut self, step: &Step) -> Result<(), AllocError> {
        put_step(&mut self.out, step)
    }
}

/// The listing of a trace's run on a cluster and a memory as they are: a line for each step, the
/// total of bus cycles, and the number of records left, if there are any. A table of wrong length
/// is not refused here: each command is, with 2. Only want of memory is an error.
pub fn list_run<M: Memory>(
    heap: Global,
    cluster: &mut Cluster,
    lines: &mut [Line],
    locks: &mut [LockEntry],
    memory: &mut M,
    trace: Trace,
) -> Result<Vec<u8>, AllocError>
    ensures listing { let before = board_of cluster.old lines.old locks.old (M.model memory.old) in
        let records = records_of trace.entry.records.now in
        let listing = all_lines cluster.old.geometry.measures records (started records before) in
        IfOk result (λ out. out.items ≡ listing) }
    ensures kept { OnOk result (M.standing memory.new ≡ M.standing memory.old) }
{
    let mut listing = Lines {
        out: Vec::new(heap),
    };
    let summary = run_watched(cluster, lines, locks, memory, trace, &mut listing)?;
    let Lines { mut out } = listing;
    put_summary(&mut out, &summary)?;
    Ok(out)
}

/// The listing of a trace's run on a new cluster of a geometry, over a memory. Only want of memory
/// is an error.
pub fn list_trace<M: Memory>(
    heap: Global,
    geometry: Geometry,
    memory: &mut M,
    trace: Trace,
) -> Result<Vec<u8>, AllocError>
    ensures listing { let records = records_of trace.entry.records.now in
        let listing = listing_on geometry.measures (M.model memory.old) records in
        IfOk result (λ out. out.items ≡ listing) }
    ensures kept { OnOk result (M.standing memory.new ≡ M.standing memory.old) }
{
    let mut board = Board::new(heap, geometry)?;
    list_run(
        heap,
        &mut board.cluster,
        &mut board.lines,
        &mut board.locks,
        memory,
        trace,
    )
}

/// The geometry of the cluster that a trace is listed with: the trace's processors, 16 columns, 4
/// ways, 2 lock entries, standard costs.
#[tactic(auto, using(crate::proofs::Measured::geometry_made, crate::proofs::Measured::listing_lawful))]
pub fn listing_geometry(trace: &Trace) -> Geometry
    ensures { result.measures ≡ listing_measures trace.now.processors }
{
    let measures = Measures {
        processors: trace.processors(),
        columns: 16,
        ways: 4,
        lock_entries: 2,
        costs: Costs::STANDARD,
    };
    Geometry::new(measures).unwrap()
}

// The run of a trace over a new cluster and zero words.
fn list_read(heap: Global, trace: Trace) -> Result<Vec<u8>, AllocError>
    ensures { let content = content_of trace.entry.processors trace.entry.records.now in
        IfOk result (λ out. out.items ≡ run_lines content) }
{
    let mut words = [0; MEMORY_WORDS];
    let mut memory = WordTable::new(&mut words);
    list_trace(heap, listing_geometry(&trace), &mut memory, trace)
}

// The line of an input that is no trace.
fn list_refusal(heap: Global, refusal: Refusal) -> Result<Vec<u8>, AllocError>
    ensures { IfOk result (λ out. out.items ≡ refusal_line refusal) }
{
    let mut out = Vec::new(heap);
    put_refusal(&mut out, refusal)?;
    Ok(out)
}

/// The trace that the listing program lists. Refuses an input of over 65,536 bytes with 12, as one
/// with a wrong trailer, then as reading a trace does with 12 or 13.
pub fn read_listed(input: &[u8]) -> Result<Trace<'_>, Refusal>
    ensures { let long = nat_lt 65536 (length input.now) in
        result_map_both (λ t. content_of t.processors t.records.now) (λ refusal. refusal) result
        ≡ (if long then Err Refusal.Trailer else trace_of input.now) }
{
    if input.len() > MOST_INPUT {
        return Err(Refusal::Trailer);
    }
    Trace::read(input)
}

/// The listing that the listing program writes for an input: of the trace that it is, on a cluster
/// of the trace's processors, 16 columns, 4 ways and 2 lock entries over 1,024 zero words, or the
/// line of its refusal, 12 or 13. Only want of memory is an error.
pub fn list(heap: Global, input: &[u8]) -> Result<Vec<u8>, AllocError>
    ensures { IfOk result (λ out. out.items ≡ listing_of input.now) }
{
    match read_listed(input) {
        Ok(trace) => list_read(heap, trace),
        Err(refusal) => list_refusal(heap, refusal),
    }
}
