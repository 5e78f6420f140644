// What a command meets: refusals 3 to 10, else what it found and what the state table says.
ghost use Rattle.std.specs.Prelude.{◌≡◌, ◌<◌, length, IfSome, IfOk, Ok, OnOk};
ghost use Rattle.cluster.specs.Cases.{Sound};
ghost use Rattle.cluster.specs.Doing.{asks_for_block, lock_hit, takes_way};
ghost use Rattle.cluster.specs.Refusing.{unless_refused, is_direct_write, admission, lock_tests, entry_used, case_met, case_of};
ghost use Rattle.cluster.specs.Settling.{takes_lock};
ghost use Rattle.cluster.specs.Waiting.{Ready};

use crate::caches::line_at;
use crate::cluster::{Cluster, Processor};
use crate::view::View;
use protocol::acting::acts_as;
use protocol::command::{Action, BusCommand, Command, Request};
use protocol::lock::LockEntry;
use protocol::refusal::Refusal;
use protocol::state::State;
use protocol::table::{Effect, look_up};

// That a place lies in its table is asked where it is used, since the tables are not the case's.
/// What a command meets that is not refused with 2 to 10. `place` is the line found in the own
/// cache, `entry` the lock entry that is written or emptied, `copy` the supplier, and `holder` the
/// lowest other processor with a lock in the block.
#[derive(Clone, Copy)]
pub struct Case {
    pub processor: u8,
    pub command: Command,
    pub address: u32,
    pub block: u32,
    pub action: Action,
    pub place: Option<usize>,
    pub found: State,
    pub effect: Effect,
    pub copy: Option<u8>,
    pub holder: Option<u8>,
    pub entry: Option<usize>,
}

pub(crate) fn takes_lock(command: Command) -> bool
    ensures { result ≡ takes_lock command }
{
    matches!(command, Command::LR)
}

// F and FI ask for the block.
pub(crate) fn asks_for_block(bus: Option<BusCommand>) -> bool
    ensures { result ≡ asks_for_block bus }
{
    matches!(bus, Some(BusCommand::F | BusCommand::FI))
}

impl Case {
    // The cell sends F, FI or LK, and another processor has a lock in the block.
    pub(crate) fn lock_hit(&self) -> Option<u8>
        ensures { result ≡ lock_hit self.now }
    {
        if self.effect.lk || asks_for_block(self.effect.bus) {
            self.holder
        } else {
            None
        }
    }

    // Every command that found I takes a way, except U.
    pub(crate) fn takes_way(&self) -> bool
        ensures { result ≡ takes_way self.now }
    {
        self.action != Action::U && !self.found.is_valid()
    }
}

fn is_direct_write(action: Action) -> bool
    ensures { result ≡ is_direct_write action }
{
    action == Action::DW
}

impl Cluster {
    // The lock entry that the command writes or empties: refusals 6, 7 and 8.
    fn entry_for(&self, locks: &[LockEntry], request: Request) -> Result<Option<usize>, Refusal>
        ensures value { let tests = lock_tests self.now.geometry.measures locks.now request in
            let entry = entry_used self.now.geometry.measures locks.now request in
            result ≡ unless_refused tests (Ok entry) }
        ensures within { IfOk result (λ e. IfSome e (λ i. i < length locks.now)) }
    {
        let held = self.held_entry(locks, request.processor, request.address);
        match request.command {
            Command::LR if held.is_some() => Err(Refusal::LockHeld),
            Command::LR => match self.free_entry(locks, request.processor) {
                None => Err(Refusal::NoLockEntry),
                free => Ok(free),
            },
            Command::U | Command::UW(_) if held.is_none() => Err(Refusal::NoLock),
            Command::U | Command::UW(_) => Ok(held),
            _ => Ok(None),
        }
    }

    // Refusals 3, 4 and 5.
    fn admit(&self, blocks: u32, request: Request) -> Result<(), Refusal>
        ensures value { let measures = self.now.geometry.measures in
            let tests = admission measures self.now.processors blocks request in
            result ≡ unless_refused tests (Ok tt) }
        ensures known { OnOk result (request.processor < self.now.geometry.measures.processors) }
        ensures ready { OnOk result (Ready self.now.processors request.processor) }
    {
        if request.processor >= self.geometry.processors() {
            return Err(Refusal::Processor);
        }
        if request.address / 4 >= blocks {
            return Err(Refusal::Address);
        }
        let table: &[Processor] = &self.processors;
        if table[request.processor as usize].waits_for.is_some() {
            return Err(Refusal::Waiting);
        }
        Ok(())
    }
}

impl<'a> View<'a> {
    // Refusals 9 and 10.
    fn case_met(&self, request: Request, entry: Option<usize>) -> Result<Case, Refusal>
        requires known { request.processor < self.now.cluster.now.geometry.measures.processors }
        requires entry { IfSome entry (λ i. i < length self.now.locks.now) }
        ensures value { let measures = self.now.cluster.now.geometry.measures in
            result ≡ case_met measures self.now.lines.now self.now.locks.now request entry }
        ensures sound { let measures = self.now.cluster.now.geometry.measures in
            let lines = length self.now.lines.now in
            IfOk result (λ case. Sound measures lines (length self.now.locks.now) case) }
        ensures same { IfOk result (λ case. case.processor ≡ request.processor) }
    {
        let block = request.address / 4;
        let place = self.cluster.line_of(self.lines, request.processor, block);
        let found = line_at(self.lines, place).state;
        let copy = self.supplier(request.processor, block);
        let holder = self
            .cluster
            .lock_holder(self.locks, request.processor, request.address);
        let action = acts_as(request.command, request.address, found, copy.is_some());
        if is_direct_write(action) && !found.is_valid() && (copy.is_some() || holder.is_some()) {
            return Err(Refusal::CopyElsewhere);
        }
        let effect = look_up(action, found).ok_or(Refusal::MachineCheck(found))?;
        Ok(Case {
            processor: request.processor,
            command: request.command,
            address: request.address,
            block,
            action,
            place,
            found,
            effect,
            copy,
            holder,
            entry,
        })
    }

    pub(crate) fn case_of(&self, blocks: u32, request: Request) -> Result<Case, Refusal>
        ensures value { let measures = self.now.cluster.now.geometry.measures in
            let processors = self.now.cluster.now.processors in
            let lines = self.now.lines.now in
            result ≡ case_of measures processors lines self.now.locks.now blocks request }
        ensures sound { let measures = self.now.cluster.now.geometry.measures in
            let lines = length self.now.lines.now in
            IfOk result (λ case. Sound measures lines (length self.now.locks.now) case) }
        ensures ready { IfOk result (λ case. Ready self.now.cluster.now.processors case.processor) }
    {
        self.cluster.admit(blocks, request)?;
        let entry = self.cluster.entry_for(self.locks, request)?;
        self.case_met(request, entry)
    }
}
