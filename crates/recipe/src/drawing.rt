// The numbers that a recipe draws, and the records that each is read as.
ghost use Rattle.std.specs.Prelude.{◌≡◌, ◌+◌, ◌≤◌, ◌<◌, ◌++◌, length, take};
ghost use Rattle.recipe.specs.Draws.{drawn, record_for, records_for};

use protocol::command::{Command, Request};
use trace::record::Record;

/// The most draws of a recipe.
pub(crate) const MOST_DRAWS: u32 = 2_000;

/// The most records that a recipe makes, two of each draw.
pub(crate) const MOST_RECORDS: usize = 4_000;

// The generator's multiplier and increment; its numbers are those below 2^32.
const MULTIPLIER: u64 = 1_664_525;

const INCREMENT: u64 = 1_013_904_223;

const MODULUS: u64 = 1 << 32;

// What a number is divided by for its kind, and for its processor; the rest is for its address.
const KINDS: u32 = 1 << 29;

const PROCESSORS: u32 = 1 << 24;

/// What the records of a recipe are for: words of memory, and processors of the cluster.
#[derive(Clone, Copy)]
pub(crate) struct Bounds {
    pub(crate) words: u32,
    pub(crate) processors: u8,
    ghost some_words: { 1 ≤ words },
    ghost some_processors: { 1 ≤ processors },
}

/// A draw: its number, from 1, and the number drawn.
#[derive(Clone, Copy)]
pub(crate) struct Draw {
    pub(crate) number: u32,
    pub(crate) value: u32,
}

/// The number drawn behind another.
pub(crate) fn next_value(value: u32) -> u32
    ensures { result ≡ drawn value }
{
    ((MULTIPLIER * value as u64 + INCREMENT) % MODULUS) as u32
}

// A record of a draw.
fn record_for(bounds: Bounds, draw: Draw, command: Command) -> Record
    ensures { result ≡ record_for bounds.words bounds.processors draw.number draw.value command }
{
    Record {
        stamp: draw.number,
        request: Request {
            processor: (draw.value / PROCESSORS % 32) as u8 % bounds.processors,
            command,
            address: draw.value % PROCESSORS % bounds.words,
        },
    }
}

/// Puts the records of a draw behind the first `count` of the table. The answer is how many there
/// are then.
#[tactic(auto, unfolding(crate::specs::Draws::records_for))]
pub(crate) fn put_draw(records: &mut [Record], count: usize, bounds: Bounds, draw: Draw) -> usize
    requires room { count + 2 ≤ length records.old }
    ensures few { result ≤ count + 2 }
    ensures records { let new = records_for bounds.words bounds.processors draw.number draw.value in
        take result records.new ≡ take count records.old ++ new }
    ensures many { let new = records_for bounds.words bounds.processors draw.number draw.value in
        result ≡ count + length new }
    ensures long { length records.new ≡ length records.old }
{
    match draw.value / KINDS {
        0..=4 => {
            records[count] = record_for(bounds, draw, Command::R);
            count + 1
        }
        5 | 6 => {
            records[count] = record_for(bounds, draw, Command::W(draw.number));
            count + 1
        }
        _ => {
            records[count] = record_for(bounds, draw, Command::LR);
            records[count + 1] = record_for(bounds, draw, Command::UW(draw.number));
            count + 2
        }
    }
}
