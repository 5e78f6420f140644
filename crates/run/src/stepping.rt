// The steps of a run: each issues the earliest record whose processor does not wait.
ghost use Rattle.std.specs.Prelude.{◌≡◌, ℕ, ◌+◌, ◌<◌, ◌≤◌, not, length, is_some, OnSome, slice_index};
ghost use Rattle.cluster.specs.Board.{board_of};
ghost use Rattle.cluster.specs.Waiting.{awaited_in};
ghost use Rattle.trace.specs.Sizes.{records_in};
ghost use Rattle.trace.specs.Traces.{next_of};
ghost use Rattle.run.specs.Answered.{cost_of, finishes_record};
ghost use Rattle.run.specs.Kept.{AtFirst, is_left, left_by, summary_by, state_of, next_step, after_step, Falls, Earliest, next_after};
ghost use Rattle.run.specs.Progress.{Stepped};

use crate::run::Run;
use cluster::cluster::Cluster;
use memory::memory::Memory;
use protocol::answer::Answer;
use protocol::line::Line;
use protocol::lock::LockEntry;
use protocol::refusal::Refusal;
use std::array;
use text::step::{Step, Summary};
use trace::trace::Trace;

fn cost(answer: &Result<Answer, Refusal>) -> u32
    ensures { result ≡ cost_of answer.now }
{
    match answer {
        Ok(answer) => answer.cycles(),
        Err(_) => 0,
    }
}

// WAIT leaves its record unfinished; every other answer finishes it.
fn finishes(answer: &Result<Answer, Refusal>) -> bool
    ensures { result ≡ finishes_record answer.now }
{
    !matches!(answer, Ok(Answer::Wait(_)))
}

fn awake(cluster: &Cluster, processor: u8) -> bool
    ensures { let measures = cluster.now.geometry.measures in
        result ≡ not (is_some (awaited_in measures cluster.now.processors processor)) }
{
    cluster.waits_for(processor).is_none()
}

fn first_records(trace: &Trace) -> [usize; 8]
    ensures long { length result ≡ 8 }
    ensures each { (p : ℕ) → p < 8 → slice_index result p ≡ next_of p 0 trace.now.records.now }
{
    array::from_fn(|p| trace.next_of(p as u8, 0))
}

impl<'a> Run<'a> {
    pub(crate) fn start(trace: Trace<'a>) -> Run<'a>
        ensures trace { result.trace ≡ trace.entry }
        ensures first { AtFirst result }
    {
        Run {
            trace,
            next: first_records(&trace),
            steps: 0,
            cycles: 0,
        }
    }

    // The processor whose next record is the earliest among those that do not wait. By `filter` and
    // `min_by_key` each processor is asked whether it waits, and the search took twice as long.
    fn due(&self, cluster: &Cluster) -> Option<u8>
        ensures { let waits = awaited_in cluster.now.geometry.measures cluster.now.processors in
            Earliest waits self.now.next (records_in self.now.trace.records.now) result }
    {
        let next: &[usize] = &self.next;
        let mut earliest = self.trace.count();
        let mut due = None;
        for p in 0..8 {
            let at = next[p as usize];
            if at < earliest && awake(cluster, p) {
                earliest = at;
                due = Some(p);
            }
        }
        due
    }

    // Counts the step and its cycles; an answer that finishes its record moves its processor on.
    fn account(&mut self, processor: u8, answer: &Result<Answer, Refusal>)
        requires listed { processor < 8 }
        requires inside { let count = records_in self.old.trace.records.now in
            slice_index self.old.next processor < count }
        requires few { self.old.steps < 1000000000 }
        requires cost { cost_of answer.now ≤ 4000 }
        ensures trace { self.new.trace ≡ self.old.trace }
        ensures next { let bytes = self.old.trace.records.now in
            let index = slice_index self.old.next processor in
            self.new.next ≡ next_after bytes self.old.next processor index answer.now }
        ensures steps { self.new.steps ≡ self.old.steps + 1 }
        ensures cycles { self.new.cycles ≡ self.old.cycles + cost_of answer.now }
    {
        self.steps += 1;
        self.cycles += cost(answer) as u64;
        if finishes(answer) {
            let index = self.next[processor as usize];
            self.next[processor as usize] = self.trace.next_of(processor, index + 1);
        }
    }

    // Issues the next record, if there is one whose processor does not wait.
    pub(crate) fn step<M: Memory>(
        &mut self,
        cluster: &mut Cluster,
        lines: &mut [Line],
        locks: &mut [LockEntry],
        memory: &mut M,
    ) -> Option<Step>
        requires { self.old.steps < 1000000000 }
        ensures value { let before = board_of cluster.old
            lines.old locks.old (M.model memory.old) in
            result ≡ next_step cluster.old.geometry.measures self.old before }
        ensures after { let before = board_of cluster.old
            lines.old locks.old (M.model memory.old) in
            let after = board_of cluster.new lines.new locks.new (M.model memory.new) in
            state_of self.new after ≡ after_step cluster.old.geometry.measures self.old before }
        ensures stepped { let count = records_in self.old.trace.records.now in
            let before = cluster.old.processors in
            Stepped count result self.old self.new before cluster.new.processors }
        ensures less { let before = board_of cluster.old lines.old locks.old (M.model memory.old) in
            OnSome result (Falls cluster.old.geometry.measures self.old before) }
        ensures trace { self.new.trace ≡ self.old.trace }
        ensures geometry { cluster.new.geometry ≡ cluster.old.geometry }
        ensures kept { M.standing memory.new ≡ M.standing memory.old }
    {
        let processor = self.due(cluster)?;
        let next = self.trace.record(self.next[processor as usize])?;
        let answer = cluster.issue(lines, locks, memory, next.request);
        self.account(processor, &answer);
        Some(Step {
            number: self.steps,
            request: next.request,
            answer,
        })
    }

    // By `is_some_and` of the record the check leaves open what the closure returns.
    fn unfinished(&self, index: usize) -> bool
        ensures { result ≡ is_left self.now index }
    {
        match self.trace.record(index) {
            Some(record) => self.next[record.request.processor as usize] <= index,
            None => false,
        }
    }

    // The records that are unfinished.
    fn left(&self) -> u32
        ensures few { result ≤ 1048576 }
        ensures value { result ≡ left_by self.now }
    {
        (0..self.trace.count())
            .filter(|index| self.unfinished(*index))
            .count() as u32
    }

    pub(crate) fn summary(&self) -> Summary
        ensures few { result.left ≤ 1048576 }
        ensures value { result ≡ summary_by self.now }
    {
        Summary {
            steps: self.steps,
            cycles: self.cycles,
            left: self.left(),
        }
    }
}
