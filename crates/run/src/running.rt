// A run of a trace from its first step to its last.
ghost use Rattle.std.specs.Prelude.{◌≡◌, ◌+◌, ◌≤◌, None, OnOk};
ghost use Rattle.trace.specs.Traces.{trace_of};
ghost use Rattle.law.specs.Along.{LawAlong};
ghost use Rattle.cluster.specs.Board.{board_of};
ghost use Rattle.run.specs.Commands.{AsCommands, issued, steps_on};
ghost use Rattle.run.specs.Kept.{records_for, state_of, to_go_on, ran_on};
ghost use Rattle.run.specs.Running.{due, run_rule, Ended};

use crate::run::Run;
use cluster::cluster::Cluster;
use memory::memory::Memory;
use protocol::line::Line;
use protocol::lock::LockEntry;
use protocol::refusal::Refusal;
use text::step::Summary;
use trace::trace::Trace;

impl<'a> Run<'a> {
    // Takes steps until none is possible.
    fn finish<M: Memory>(
        &mut self,
        cluster: &mut Cluster,
        lines: &mut [Line],
        locks: &mut [LockEntry],
        memory: &mut M,
    )
        requires { let before = board_of cluster.old lines.old locks.old (M.model memory.old) in
            self.old.steps + to_go_on cluster.old.geometry.measures self.old before ≤ 999999999 }
        ensures after { let before = board_of cluster.old
            lines.old locks.old (M.model memory.old) in
            let after = board_of cluster.new lines.new locks.new (M.model memory.new) in
            state_of self.new after ≡ ran_on cluster.old.geometry.measures self.old before }
        ensures ended { let after = board_of cluster.new lines.new locks.new (M.model memory.new) in
            let state = state_of self.new after in
            due cluster.old.geometry.measures (records_for self.old) state ≡ None }
        ensures trace { self.new.trace ≡ self.old.trace }
        ensures geometry { cluster.new.geometry ≡ cluster.old.geometry }
        ensures kept { M.standing memory.new ≡ M.standing memory.old }
    {
        while self.step(cluster, lines, locks, memory).is_some() {}
    }
}

/// Runs a trace to its end on a cluster, its tables and a memory: the number of steps, their bus
/// cycles and the number of records left. Refuses with 2 a table of wrong length, lines first, then
/// with 12 or 13 as reading a trace does; only before the first step, and then nothing changes.
#[tactic(auto, unfolding(crate::specs::Running::run_rule))]
pub fn run_trace<M: Memory>(
    cluster: &mut Cluster,
    lines: &mut [Line],
    locks: &mut [LockEntry],
    memory: &mut M,
    bytes: &[u8],
) -> Result<Summary, Refusal>
    ensures answer { let before = board_of cluster.old lines.old locks.old (M.model memory.old) in
        result ≡ (run_rule cluster.old.geometry.measures before bytes.now).answer }
    ensures board { let before = board_of cluster.old lines.old locks.old (M.model memory.old) in
        board_of cluster.new lines.new locks.new (M.model memory.new)
        ≡ (run_rule cluster.old.geometry.measures before bytes.now).board }
    ensures ended { let before = board_of cluster.old lines.old locks.old (M.model memory.old) in
        OnOk result (Ended cluster.old.geometry.measures before (trace_of bytes.now)) }
    ensures commands { let before = board_of cluster.old lines.old locks.old (M.model memory.old) in
        let after = board_of cluster.new lines.new locks.new (M.model memory.new) in
        let steps = steps_on cluster.old.geometry.measures before (trace_of bytes.now) in
        OnOk result (AsCommands cluster.old.geometry.measures before after steps) }
    ensures law { let before = board_of cluster.old lines.old locks.old (M.model memory.old) in
        let steps = steps_on cluster.old.geometry.measures before (trace_of bytes.now) in
        OnOk result (LawAlong cluster.old.geometry before (issued steps)) }
    ensures geometry { cluster.new.geometry ≡ cluster.old.geometry }
    ensures kept { M.standing memory.new ≡ M.standing memory.old }
{
    cluster.check_tables(lines, locks)?;
    let mut run = Run::start(Trace::read(bytes)?);
    run.finish(cluster, lines, locks, memory);
    Ok(run.summary())
}
