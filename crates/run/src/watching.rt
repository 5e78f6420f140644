// A run that is watched step by step.
ghost use Rattle.std.specs.Prelude.{◌≡◌, IfOk, None, OnOk, ⊤};
ghost use Rattle.cluster.specs.Board.{board_of};
ghost use Rattle.law.specs.Along.{LawAlong};
ghost use Rattle.text.specs.declared.step.Step.{Step};
ghost use Rattle.trace.specs.Traces.{records_of};
ghost use Rattle.run.specs.Commands.{RunAsCommands, issued, steps_over};
ghost use Rattle.run.specs.Running.{due, started, steps_of, end_of, summary_of};
ghost use Rattle.run.specs.Watching.{SeesAll};

use crate::run::Run;
use cluster::cluster::Cluster;
use memory::memory::Memory;
use protocol::line::Line;
use protocol::lock::LockEntry;
use std::alloc::AllocError;
use text::step::{Step, Summary};
use trace::trace::Trace;

/// What is shown each step of a run, in order. Only want of memory is an error; it ends the run.
pub trait Watch {
    // what it makes of one step
    ghost sees: { Self → Step → Self → Type 0 };

    /// Is shown one step.
    fn see(&mut self, step: &Step) -> Result<(), AllocError>
        ensures { OnOk result (sees self.old step.now self.new) };
}

/// A watcher that makes nothing of what it is shown.
#[derive(Drop)]
pub struct Unwatched;

impl Watch for Unwatched {
    ghost sees = { λ before step after. ⊤ };

    fn see(&mut self, _step: &Step) -> Result<(), AllocError> {
        Ok(())
    }
}

// No iterator of steps: it would hold the cluster, its tables and the memory from step to step.
/// Runs a trace to its end and shows a watcher each step. A line or lock table of wrong length is
/// not refused here: each command is, with 2. Only the watcher's want of memory is an error.
pub fn run_watched<M: Memory, W: Watch>(
    cluster: &mut Cluster,
    lines: &mut [Line],
    locks: &mut [LockEntry],
    memory: &mut M,
    trace: Trace,
    watcher: &mut W,
) -> Result<Summary, AllocError>
    ensures answer { let before = board_of cluster.old lines.old locks.old (M.model memory.old) in
        let records = records_of trace.entry.records.now in
        let end = end_of cluster.old.geometry.measures before records in
        IfOk result (λ s. s ≡ summary_of cluster.old.geometry.measures records end) }
    ensures board { let before = board_of cluster.old lines.old locks.old (M.model memory.old) in
        let records = records_of trace.entry.records.now in
        let end = end_of cluster.old.geometry.measures before records in
        OnOk result (board_of cluster.new lines.new locks.new (M.model memory.new) ≡ end.board) }
    ensures seen { let before = board_of cluster.old lines.old locks.old (M.model memory.old) in
        let records = records_of trace.entry.records.now in
        let steps = steps_of cluster.old.geometry.measures records (started records before) in
        OnOk result (SeesAll W.sees watcher.old steps watcher.new) }
    ensures ended { let before = board_of cluster.old lines.old locks.old (M.model memory.old) in
        let records = records_of trace.entry.records.now in
        let end = end_of cluster.old.geometry.measures before records in
        OnOk result (due cluster.old.geometry.measures records end ≡ None) }
    ensures commands { let before = board_of cluster.old lines.old locks.old (M.model memory.old) in
        let after = board_of cluster.new lines.new locks.new (M.model memory.new) in
        let records = records_of trace.entry.records.now in
        OnOk result (RunAsCommands cluster.old.geometry.measures before after records) }
    ensures law { let before = board_of cluster.old lines.old locks.old (M.model memory.old) in
        let records = records_of trace.entry.records.now in
        let steps = steps_over cluster.old.geometry.measures before records in
        OnOk result (LawAlong cluster.old.geometry before (issued steps)) }
    ensures geometry { OnOk result (cluster.new.geometry ≡ cluster.old.geometry) }
    ensures kept { OnOk result (M.standing memory.new ≡ M.standing memory.old) }
{
    let mut run = Run::start(trace);
    while let Some(step) = run.step(cluster, lines, locks, memory) {
        watcher.see(&step)?;
    }
    Ok(run.summary())
}
