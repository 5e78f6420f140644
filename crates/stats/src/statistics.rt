// The statistics of a run.
ghost use Rattle.std.specs.Prelude.{◌≡◌, IfOk, OnOk};
ghost use Rattle.cluster.specs.Board.{board_of, new_board};
ghost use Rattle.trace.specs.Traces.{records_of};
ghost use Rattle.run.specs.Running.{end_of};
ghost use Rattle.stats.specs.Statistics.{statistics_of, all_cycles, all_steps, Counts};

use crate::copies::{blocks_by_copies, lines_by_state};
use crate::tally::Tally;
use cluster::cluster::Cluster;
use memory::memory::Memory;
use protocol::geometry::Geometry;
use protocol::line::Line;
use protocol::lock::LockEntry;
use protocol::measures::Costs;
use run::board::Board;
use run::watching::{Watch, run_watched};
use std::alloc::{AllocError, Global};
use text::step::{Step, Summary};
use trace::trace::Trace;

/// The statistics of a run: what it came to, its steps counted by what they did, and what stands at
/// its end.
#[derive(Clone, Copy)]
pub struct Statistics {
    /// The cluster's processors.
    pub processors: u8,
    /// Steps, bus cycles, and records left.
    pub summary: Summary,
    /// The steps by what they did.
    pub tally: Tally,
    /// Lines at the end in EM, EC, SM, S and I.
    pub lines: [u64; 5],
    /// Blocks of the memory that have 0, 1, .. 8 valid copies at the end.
    pub copies: [u64; 9],
}

// Adds each step that it sees.
#[derive(Drop)]
struct Counting {
    costs: Costs,
    tally: Tally,
}

impl Watch for Counting {
    ghost sees = { λ before step after. Counts before step after };

    fn see(&mut self, step: &Step) -> Result<(), AllocError> {
        self.tally.add(&self.costs, step);
        Ok(())
    }
}

/// Runs a trace to its end on a cluster and a memory as they are, and gives the run's statistics. A
/// line or lock table of wrong length is not refused here: each command is, with 2. Only want of
/// memory is an error.
pub fn run_statistics<M: Memory>(
    heap: Global,
    cluster: &mut Cluster,
    lines: &mut [Line],
    locks: &mut [LockEntry],
    memory: &mut M,
    trace: Trace,
) -> Result<Statistics, AllocError>
    ensures statistics { let m = cluster.old.geometry.measures in
        let before = board_of cluster.old lines.old locks.old (M.model memory.old) in
        let records = records_of trace.entry.records.now in
        IfOk result (λ s. s ≡ statistics_of m records before) }
    ensures board { let m = cluster.old.geometry.measures in
        let before = board_of cluster.old lines.old locks.old (M.model memory.old) in
        let after = board_of cluster.new lines.new locks.new (M.model memory.new) in
        OnOk result (after ≡ (end_of m before (records_of trace.entry.records.now)).board) }
    ensures cycles { IfOk result (λ s. all_cycles s.tally.cycles ≡ s.summary.cycles) }
    ensures steps { IfOk result (λ s. all_steps s.tally ≡ s.summary.steps) }
    ensures geometry { OnOk result (cluster.new.geometry ≡ cluster.old.geometry) }
    ensures kept { OnOk result (M.standing memory.new ≡ M.standing memory.old) }
{
    let geometry = cluster.geometry();
    let mut counting = Counting {
        costs: geometry.costs(),
        tally: Tally::empty(),
    };
    let summary = run_watched(cluster, lines, locks, memory, trace, &mut counting)?;
    Ok(Statistics {
        processors: geometry.processors(),
        summary,
        tally: counting.tally,
        lines: lines_by_state(lines),
        copies: blocks_by_copies(heap, lines, memory.blocks())?,
    })
}

/// The statistics of a trace's run on a new cluster of a geometry, over a memory. Only want of
/// memory is an error.
pub fn trace_statistics<M: Memory>(
    heap: Global,
    geometry: Geometry,
    memory: &mut M,
    trace: Trace,
) -> Result<Statistics, AllocError>
    ensures statistics { let m = geometry.measures in
        let records = records_of trace.entry.records.now in
        IfOk result (λ s. s ≡ statistics_of m records (new_board m (M.model memory.old))) }
    ensures cycles { IfOk result (λ s. all_cycles s.tally.cycles ≡ s.summary.cycles) }
    ensures steps { IfOk result (λ s. all_steps s.tally ≡ s.summary.steps) }
    ensures kept { OnOk result (M.standing memory.new ≡ M.standing memory.old) }
{
    let mut board = Board::new(heap, geometry)?;
    run_statistics(
        heap,
        &mut board.cluster,
        &mut board.lines,
        &mut board.locks,
        memory,
        trace,
    )
}
