// A case as bytes: name, geometry, size of memory, dead blocks and steps.
ghost use Rattle.std.specs.Prelude.{length};
ghost use Rattle.std.specs.Iterator.{at_most};

use parts::cases::split_counted;
use protocol::command::Request;
use protocol::measures::{Costs, Measures};
use std::alloc::{AllocError, Global};
use trace::record::{RECORD_SIZE, decode};

/// What a case is played on.
#[derive(Clone, Copy)]
pub struct Setting {
    pub measures: Measures,
    pub words: usize,
}

impl From<[u8; 7]> for Setting {
    fn from(sizes: [u8; 7]) -> Setting {
        let [
            processors,
            low_columns,
            high_columns,
            ways,
            lock_entries,
            low_words,
            high_words,
        ] = sizes;
        Setting {
            measures: Measures {
                processors,
                columns: usize::from(u16::from_le_bytes([low_columns, high_columns])),
                ways: usize::from(ways),
                lock_entries: usize::from(lock_entries),
                costs: Costs::STANDARD,
            },
            words: usize::from(u16::from_le_bytes([low_words, high_words])),
        }
    }
}

#[derive(Clone, Copy)]
/// A case: its name, what it is played on, and its steps.
pub struct Case<'a> {
    pub name: &'a [u8],
    pub setting: Setting,
    pub dead: &'a [u8],
    pub steps: &'a [u8],
}

/// The cases of an input, as far as they are whole. Each program has its own: they differ in all
/// that `next` reads behind the name, and one generic type would need a trait and a marker to say
/// the rest.
#[derive(Drop)]
pub struct Cases<'a>(pub &'a [u8]);

impl<'a> Iterator for Cases<'a> {
    type Item = Case<'a>;

    ghost remaining = { λ s. at_most (length s.0.now) };

    fn next(&mut self) -> Option<Case<'a>> {
        let (name, rest) = split_counted(self.0, 1)?;
        let (sizes, rest) = rest.split_first_chunk::<7>()?;
        let (dead, rest) = split_counted(rest, 2)?;
        let (steps, rest) = split_counted(rest, RECORD_SIZE as u8)?;
        self.0 = rest;
        Some(Case {
            name,
            setting: Setting::from(*sizes),
            dead,
            steps,
        })
    }
}

/// A step of a case. It has the bytes of a record, with a code of its own where it is no command.
#[derive(Clone, Copy)]
pub enum Step {
    Command(Request),
    // The cluster and its tables are made new, over what they had.
    MakeNew,
    // Who holds a lock at the address.
    Holder(u32),
    // From here on the calls are lent so many of the lines and of the lock entries.
    Lend(usize, usize),
}

/// The step that sixteen bytes are, if they are one.
pub fn step_of(bytes: &[u8]) -> Option<Step> {
    let (&[_, [_, code, _, _], address, data], []) = bytes.as_chunks::<4>() else {
        return None;
    };
    let (address, data) = (u32::from_le_bytes(address), u32::from_le_bytes(data));
    match code {
        b'N' => Some(Step::MakeNew),
        b'H' => Some(Step::Holder(address)),
        b'L' => Some(Step::Lend(address as usize, data as usize)),
        _ => Some(Step::Command(decode(bytes)?.request)),
    }
}

/// The numbers of two bytes each.
pub fn numbers(heap: Global, bytes: &[u8]) -> Result<Vec<u32>, AllocError> {
    let (pairs, _) = bytes.as_chunks::<2>();
    pairs
        .iter()
        .map(|pair| u32::from(u16::from_le_bytes(*pair)))
        .collect(heap)
}
