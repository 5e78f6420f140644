// Waiting, waking and the lock entries of a done command.
ghost use Rattle.std.specs.Prelude.{◌≡◌, ◌/◌, ◌<◌, length, IfSome, slice_index_or, slice_set};
ghost use Rattle.cluster.specs.Locks.{waited_for};
ghost use Rattle.cluster.specs.Making.{resting};
ghost use Rattle.cluster.specs.Settling.{ul_sent, locks_settled, woken_by};
ghost use Rattle.cluster.specs.Waiting.{Ready, not_waiting, idle, woken, all_woken, waiting_for};

use crate::case::{Case, takes_lock};
use crate::cluster::{Cluster, Processor};
use crate::locks::release;
use protocol::answer::LockHit;
use protocol::lock::{LockEntry, LockState};

// A processor that waits for the block stops waiting.
pub(crate) fn awake(processor: Processor, block: u32) -> Processor
    ensures { result ≡ woken block processor }
{
    if processor.waits_for == Some(block) {
        Processor {
            waits_for: None,
            ..processor
        }
    } else {
        processor
    }
}

impl Cluster {
    // The processor waits for the block from now on, and the holders know.
    #[tactic(auto, using(crate::proofs::Waits::waits_more, crate::proofs::Waits::waits_more_of_all))]
    pub(crate) fn wait(&mut self, locks: &mut [LockEntry], case: &Case, holder: u8) -> LockHit
        requires known { case.now.processor < self.old.geometry.measures.processors }
        requires block { case.now.block ≡ case.now.address / 4 }
        requires ready { Ready self.old.processors case.now.processor }
        ensures answer { let cycles = self.old.geometry.measures.costs.lock_signal in
            result ≡ record { holder = holder; found = case.now.found; cycles = cycles } }
        ensures locks { let asking = case.now.processor in
            locks.new ≡ waited_for self.old.geometry.measures locks.old asking case.now.block }
        ensures geometry { self.new.geometry ≡ self.old.geometry }
        ensures processors { let p = case.now.processor in
            let asking = slice_index_or self.old.processors p resting in
            let waiting = waiting_for asking case.now.block in
            self.new.processors ≡ slice_set self.old.processors p waiting }
        ensures fewer { not_waiting self.new.processors < not_waiting self.old.processors }
        ensures fewer_idle { let count = self.old.geometry.measures.processors in
            idle count self.new.processors < idle count self.old.processors }
    {
        self.mark_waited(locks, case.processor, case.address);
        self.processors[case.processor as usize].waits_for = Some(case.block);
        LockHit {
            holder,
            found: case.found,
            cycles: self.geometry.costs().lock_signal,
        }
    }

    pub(crate) fn wake(&mut self, block: u32)
        ensures processors { self.new.processors ≡ all_woken block self.old.processors }
        ensures geometry { self.new.geometry ≡ self.old.geometry }
    {
        self.processors = self.processors.map(|p| awake(p, block));
    }

    // LR takes its entry; U and UW empty theirs and wake who waits. Whether UL is sent.
    pub(crate) fn settle_locks(&mut self, locks: &mut [LockEntry], case: &Case) -> bool
        requires { IfSome case.now.entry (λ i. i < length locks.old) }
        ensures ul { result ≡ ul_sent case.now.command locks.old case.now.entry }
        ensures locks { let command = case.now.command in
            locks.new ≡ locks_settled command case.now.address locks.old case.now.entry }
        ensures processors { let before = self.old.processors in
            self.new.processors ≡ woken_by result case.now.block before }
        ensures geometry { self.new.geometry ≡ self.old.geometry }
    {
        let Some(i) = case.entry else {
            return false;
        };
        if takes_lock(case.command) {
            locks[i] = LockEntry {
                state: LockState::L,
                address: case.address,
            };
            return false;
        }
        let waited = release(locks, i);
        if waited {
            self.wake(case.block);
        }
        waited
    }
}
