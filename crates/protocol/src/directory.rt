// One directory for both tables: it finds the first entry of a window that is in use and whose key
// lies from a low to a high number.
ghost use Rattle.std.specs.Prelude.{◌≡◌, ℕ, ◌+◌, ◌*◌, ◌/◌, ◌<◌, ◌≤◌, Bool, ◌&&◌, length, nat_le, nat_lt};
ghost use Rattle.std.specs.List.{position};
ghost use Rattle.protocol.specs.Finding.{lies_in, unused, first_in, window_of, Within};

/// The keys that are looked for, from `low` to `high`, both included.
#[derive(Clone, Copy)]
pub struct Keys {
    pub low: u32,
    pub high: u32,
}

impl Keys {
    /// One key alone.
    pub fn only(key: u32) -> Keys
        ensures { result ≡ record { low = key; high = key } }
    {
        Keys {
            low: key,
            high: key,
        }
    }

    /// The four word addresses of the block that has this one.
    pub fn of_block_at(address: u32) -> Keys
        ensures low { result.low ≡ 4 * (address / 4) }
        ensures high { result.high ≡ 4 * (address / 4) + 3 }
    {
        let low = address - address % 4;
        Keys { low, high: low + 3 }
    }

    /// Whether the key is one of these.
    pub fn contains(self, key: u32) -> bool
        ensures { result ≡ (nat_le self.low key && nat_le key self.high) }
    {
        self.low <= key && key <= self.high
    }
}

/// The places of a table from `from` on, as many as `count`.
#[derive(Clone, Copy)]
pub struct Window {
    pub from: usize,
    pub count: usize,
}

impl Window {
    /// Whether the place is one of these.
    pub fn contains(self, place: usize) -> bool
        ensures { result ≡ (nat_le self.from place && nat_lt place (self.from + self.count)) }
    {
        self.from <= place && place - self.from < self.count
    }
}

/// An entry of a table: a cache line, or an entry of the lock directory.
pub trait Entry {
    /// Whether an entry is in use.
    ghost used: { Self → Bool };

    /// An entry's key: a line's block number, a lock entry's word address.
    ghost label: { Self → ℕ };

    /// Whether the entry is in use.
    fn in_use(&self) -> bool
        ensures { result ≡ used self.now };

    /// The entry's key.
    fn key(&self) -> u32
        ensures { result ≡ label self.now };

    /// Whether the entry is in use and has one of these keys.
    fn lies_in(&self, keys: Keys) -> bool
        ensures { result ≡ lies_in used label keys.low keys.high self.now }
    {
        self.in_use() && keys.contains(self.key())
    }
}

fn first_between<E: Entry>(entries: &[E], keys: Keys) -> Option<usize>
    ensures { result ≡ position (lies_in E.used E.label keys.low keys.high) entries.now }
{
    entries.iter().position(|e| e.lies_in(keys))
}

fn first_unused<E: Entry>(entries: &[E]) -> Option<usize>
    ensures { result ≡ position (unused E.used) entries.now }
{
    entries.iter().position(|e| !e.in_use())
}

/// A table that is searched by window.
#[derive(Drop)]
pub struct Directory<'a, E> {
    entries: &'a [E],
}

#[tactic(auto, using(crate::proofs::Finding::none_found, crate::proofs::Finding::first_found))]
impl<'a, E: Entry> Directory<'a, E> {
    /// The directory over a lent table.
    pub fn new(entries: &'a [E]) -> Directory<'a, E>
        ensures { result.entries.now ≡ entries.now }
    {
        Directory { entries }
    }

    // The entries of the window that the table has.
    fn entries_in(self, window: Window) -> &'a [E]
        ensures { result.now ≡ window_of window.from window.count self.entry.entries.now }
    {
        let (_, behind) = self.entries.split_at(window.from.min(self.entries.len()));
        &behind[..window.count.min(behind.len())]
    }

    /// The place, in the whole table, of the first entry of the window that is in use and has one
    /// of these keys.
    pub fn find(self, window: Window, keys: Keys) -> Option<usize>
        ensures value { result ≡ first_in (lies_in E.used E.label keys.low keys.high) window.from
            (window_of window.from window.count self.entry.entries.now) }
        ensures within { Within window.from window.count self.entry.entries.now result }
    {
        let place = first_between(self.entries_in(window), keys)?;
        Some(window.from + place)
    }

    /// The place, in the whole table, of the first entry of the window that is not in use.
    pub fn free(self, window: Window) -> Option<usize>
        ensures value { result ≡ first_in (unused E.used) window.from
            (window_of window.from window.count self.entry.entries.now) }
        ensures within { Within window.from window.count self.entry.entries.now result }
    {
        let place = first_unused(self.entries_in(window))?;
        Some(window.from + place)
    }
}
