// The command call: memory is read first, then the swap-out is written, then the tables change.
ghost use Rattle.std.specs.Prelude.{◌≡◌, ◌≤◌, length, IfOk, if◌then◌else◌, Ok, Err, ◌==◌};
ghost use Rattle.protocol.specs.Answers.{cycles_in};
ghost use Rattle.protocol.specs.Places.{line_count, lock_count};
ghost use Rattle.cluster.specs.Board.{board_of};
ghost use Rattle.cluster.specs.Cases.{Sound};
ghost use Rattle.cluster.specs.Making.{tables_fit};
ghost use Rattle.cluster.specs.Rule.{proceeding, command_rule};
ghost use Rattle.cluster.specs.Unlocking.{LeavesClean};
ghost use Rattle.cluster.specs.Waiting.{Ready, WaitsMore, FewerIdle};

use crate::case::Case;
use crate::cluster::Cluster;
use crate::supply::swap_out;
use crate::view::View;
use memory::memory::Memory;
use protocol::answer::Answer;
use protocol::command::Request;
use protocol::line::Line;
use protocol::lock::LockEntry;
use protocol::refusal::Refusal;

impl Cluster {
    /// Checks that a line table has processors x columns x ways lines. Refuses another length with
    /// 2.
    pub fn check_lines(&self, lines: &[Line]) -> Result<(), Refusal>
        ensures { let fits = length lines.now == line_count self.now.geometry.measures in
            result ≡ (if fits then Ok tt else Err Refusal.TableLength) }
    {
        if lines.len() != self.geometry.line_count() {
            return Err(Refusal::TableLength);
        }
        Ok(())
    }

    /// Checks that a lock table has processors x lock entries entries. Refuses another length with
    /// 2.
    pub fn check_locks(&self, locks: &[LockEntry]) -> Result<(), Refusal>
        ensures { let fits = length locks.now == lock_count self.now.geometry.measures in
            result ≡ (if fits then Ok tt else Err Refusal.TableLength) }
    {
        if locks.len() != self.geometry.lock_count() {
            return Err(Refusal::TableLength);
        }
        Ok(())
    }

    /// Checks the lengths of both tables. Refuses a wrong one with 2.
    pub fn check_tables(&self, lines: &[Line], locks: &[LockEntry]) -> Result<(), Refusal>
        ensures { let measures = self.now.geometry.measures in
            let fits = tables_fit measures (length lines.now) (length locks.now) in
            result ≡ (if fits then Ok tt else Err Refusal.TableLength) }
    {
        self.check_lines(lines)?;
        self.check_locks(locks)
    }

    // What follows refusals 3 to 10. A function of its own, so that a command that is refused with
    // one of these does not pay for what only this needs.
    fn proceed<M: Memory>(
        &mut self,
        lines: &mut [Line],
        locks: &mut [LockEntry],
        memory: &mut M,
        case: &Case,
    ) -> Result<Answer, Refusal>
        requires rows { length lines.old ≡ line_count self.old.geometry.measures }
        requires sound { let measures = self.old.geometry.measures in
            Sound measures (length lines.old) (length locks.old) case.now }
        requires ready { Ready self.old.processors case.now.processor }
        ensures answer { let before = board_of self.old lines.old locks.old (M.model memory.old) in
            result ≡ (proceeding self.old.geometry.measures before case.now).answer }
        ensures board { let before = board_of self.old lines.old locks.old (M.model memory.old) in
            board_of self.new lines.new locks.new (M.model memory.new)
            ≡ (proceeding self.old.geometry.measures before case.now).board }
        ensures geometry { self.new.geometry ≡ self.old.geometry }
        ensures kept { M.standing memory.new ≡ M.standing memory.old }
        ensures waiting { WaitsMore result self.old.processors self.new.processors }
        ensures idle { let count = self.old.geometry.measures.processors in
            FewerIdle count result self.old.processors self.new.processors }
        ensures cost { IfOk result (λ a. cycles_in a ≤ 4000) }
    {
        if let Some(holder) = case.lock_hit() {
            return Ok(Answer::Wait(self.wait(locks, case, holder)));
        }
        let view = View {
            cluster: self,
            lines,
            locks,
        };
        let supply = view.fetch(memory, case)?;
        let taken = view.taken(case);
        let swapped_out = swap_out(memory, view.victim(taken))?;
        Ok(Answer::Done(self.finish(lines, locks, case, supply, taken, swapped_out)))
    }

    // The tables and the memory are lent each by itself, so that the contract can say of each what
    // is in it afterwards.
    /// Issues a command for a processor at a word address: answers done, or WAIT where the command
    /// meets another processor's lock, with their bus cycles. Refuses with 2 to 11 in that order,
    /// and then nothing changes: a table of wrong length, no such processor, an address beyond
    /// memory, a processor that waits, a lock that it holds, no empty lock entry, no such lock, a
    /// direct write where another has a copy or a lock, a machine check, and a block that memory
    /// refuses.
    pub fn issue<M: Memory>(
        &mut self,
        lines: &mut [Line],
        locks: &mut [LockEntry],
        memory: &mut M,
        request: Request,
    ) -> Result<Answer, Refusal>
        ensures answer { let before = board_of self.old lines.old locks.old (M.model memory.old) in
            result ≡ (command_rule self.old.geometry.measures before request).answer }
        ensures board { let before = board_of self.old lines.old locks.old (M.model memory.old) in
            board_of self.new lines.new locks.new (M.model memory.new)
            ≡ (command_rule self.old.geometry.measures before request).board }
        ensures geometry { self.new.geometry ≡ self.old.geometry }
        ensures kept { M.standing memory.new ≡ M.standing memory.old }
        ensures waiting { WaitsMore result self.old.processors self.new.processors }
        ensures idle { let count = self.old.geometry.measures.processors in
            FewerIdle count result self.old.processors self.new.processors }
        ensures cost { IfOk result (λ a. cycles_in a ≤ 4000) }
        ensures clean { let before = board_of self.old lines.old locks.old (M.model memory.old) in
            let after = board_of self.new lines.new locks.new (M.model memory.new) in
            LeavesClean request result before after }
    {
        self.check_tables(lines, locks)?;
        let view = View {
            cluster: self,
            lines,
            locks,
        };
        let case = view.case_of(memory.blocks(), request)?;
        self.proceed(lines, locks, memory, &case)
    }
}
