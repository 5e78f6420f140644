// Who holds locks, and what happens to the lock entries.
ghost use Rattle.std.specs.Prelude.{◌≡◌, ◌/◌, ◌<◌, length, IfSome, slice_index_or, slice_set};
ghost use Rattle.cluster.specs.Locks.{locks_from, entry_of, held_entry, free_entry, other_lock, holder_of, waited_at, waited_for, somebody_waits};
ghost use Rattle.cluster.specs.Making.{blank_entry};

use crate::cluster::Cluster;
use protocol::directory::{Directory, Entry, Keys};
use protocol::lock::{LockEntry, LockState};

impl Cluster {
    // The processor's first entry with one of these addresses.
    fn entry_in(&self, locks: &[LockEntry], processor: u8, addresses: Keys) -> Option<usize>
        ensures value { let test = locks_from addresses.low addresses.high in
            result ≡ entry_of self.now.geometry.measures locks.now processor test }
        ensures within { IfSome result (λ i. i < length locks.now) }
    {
        Directory::new(locks).find(self.geometry.locks_of(processor), addresses)
    }

    /// The place in the lock table of the processor's first entry in use with the word address, if
    /// it has one.
    pub fn held_entry(&self, locks: &[LockEntry], processor: u8, address: u32) -> Option<usize>
        ensures value { result ≡ held_entry self.now.geometry.measures locks.now processor address }
        ensures within { IfSome result (λ i. i < length locks.now) }
    {
        self.entry_in(locks, processor, Keys::only(address))
    }

    // The processor's lowest empty entry.
    pub(crate) fn free_entry(&self, locks: &[LockEntry], processor: u8) -> Option<usize>
        ensures value { result ≡ free_entry self.now.geometry.measures locks.now processor }
        ensures within { IfSome result (λ i. i < length locks.now) }
    {
        Directory::new(locks).free(self.geometry.locks_of(processor))
    }

    // Whether the processor is not the asking one and has a lock in the block of the address.
    fn other_lock(&self, locks: &[LockEntry], asking: u8, address: u32, processor: u8) -> bool
        ensures { let measures = self.now.geometry.measures in
            result ≡ other_lock measures locks.now asking (address / 4) processor }
    {
        processor != asking
            && self
                .entry_in(locks, processor, Keys::of_block_at(address))
                .is_some()
    }

    // The lowest processor but the asking one that has a lock in the block of the address.
    pub(crate) fn lock_holder(&self, locks: &[LockEntry], asking: u8, address: u32) -> Option<u8>
        ensures { result ≡ holder_of self.now.geometry.measures locks.now asking (address / 4) }
    {
        (0..self.geometry.processors()).find(|p| self.other_lock(locks, asking, address, *p))
    }

    // The entry at a place once the asking processor waits for the block of the address.
    fn waited(&self, asking: u8, address: u32, place: usize, entry: LockEntry) -> LockEntry
        ensures { result ≡ waited_at self.now.geometry.measures asking (address / 4) place entry }
    {
        let own = self.geometry.locks_of(asking).contains(place);
        if !own && entry.lies_in(Keys::of_block_at(address)) {
            LockEntry {
                state: LockState::LW,
                ..entry
            }
        } else {
            entry
        }
    }

    // Every lock of the other processors in the block of the address has somebody waiting now.
    pub(crate) fn mark_waited(&self, locks: &mut [LockEntry], asking: u8, address: u32)
        ensures { locks.new ≡ waited_for self.now.geometry.measures locks.old asking (address / 4) }
    {
        // By `iter_mut().enumerate()` the check would know their number, and not what was written.
        for i in 0..locks.len() {
            locks[i] = self.waited(asking, address, i, locks[i]);
        }
    }
}

// Empties the entry. Whether somebody waited for it.
pub(crate) fn release(locks: &mut [LockEntry], place: usize) -> bool
    requires { place < length locks.old }
    ensures answer { result ≡ somebody_waits (slice_index_or locks.old place blank_entry) }
    ensures after { locks.new ≡ slice_set locks.old place blank_entry }
{
    let waited = locks[place].state == LockState::LW;
    locks[place] = LockEntry::BLANK;
    waited
}
