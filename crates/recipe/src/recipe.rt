// Loading a trace from a recipe.
ghost use Rattle.std.specs.Prelude.{◌≡◌, ◌≤◌, ◌+◌, ◌*◌, IfOk, OnOk, Ok, length, take};
ghost use Rattle.trace.specs.Traces.{trace_of};
ghost use Rattle.recipe.specs.Draws.{records_of_recipe};
ghost use Rattle.recipe.specs.Recipes.{lawful, recipe_rule};
ghost use Rattle.recipe.specs.Runs.{RunsThrough};

use crate::drawing::{Bounds, Draw, MOST_DRAWS, MOST_RECORDS, next_value, put_draw};
use protocol::command::{Command, Request};
use protocol::refusal::Refusal;
use trace::record::{RECORD_SIZE, Record};
use trace::trailer::TRAILER_SIZE;
use trace::writing::write_trace;

// The most words of a memory.
const MOST_WORDS: u32 = 4_194_304;

// What a place of the table has before a record is put there.
const UNUSED: Record = Record {
    stamp: 0,
    request: Request {
        processor: 0,
        command: Command::R,
        address: 0,
    },
};

/// The most bytes that the trace of a recipe takes: 4,000 records and the trailer.
pub fn most_bytes() -> usize
    ensures { result ≡ 4000 * 16 + 8 }
{
    MOST_RECORDS * RECORD_SIZE + TRAILER_SIZE
}

fn is_lawful(draws: u32, words: u32, processors: u8) -> bool
    ensures { result ≡ lawful draws words processors }
{
    (1..=MOST_DRAWS).contains(&draws)
        && (1..=MOST_WORDS).contains(&words)
        && (1..=8).contains(&processors)
}

// Puts the records of all draws into the table. The answer is how many there are.
fn put_all(records: &mut [Record], start: u32, draws: u32, bounds: Bounds) -> usize
    requires draws { draws ≤ 2000 }
    requires room { 4000 ≤ length records.old }
    ensures few { result ≤ 4000 }
    ensures long { length records.new ≡ length records.old }
    ensures records { take result records.new
        ≡ records_of_recipe start draws bounds.words bounds.processors }
{
    let mut count = 0;
    let mut value = start;
    for done in 0..draws {
        value = next_value(value);
        let draw = Draw {
            number: done + 1,
            value,
        };
        count = put_draw(records, count, bounds, draw);
    }
    count
}

/// Writes the trace of a recipe at the start of the output: its draws begin behind the number
/// `start`, its records are for so many words of memory and so many processors. The answer is the
/// trace's length in bytes, which is 16 x records + 8.
///
/// Refuses with 15 draws that are not 1 to 2,000, words that are not 1 to 4,194,304 and processors
/// that are not 1 to 8, then with 14 an output that is too short. A refused call leaves the output
/// as it was.
///
/// The run of the trace on a new cluster with these processors, over any memory of live blocks that
/// has these words at least, has a step for each record, and every step is done.
pub fn load_recipe(
    output: &mut [u8],
    start: u32,
    draws: u32,
    words: u32,
    processors: u8,
) -> Result<usize, Refusal>
    ensures answer { result ≡ (recipe_rule output.old start draws words processors).answer }
    ensures output { output.new ≡ (recipe_rule output.old start draws words processors).output }
    ensures reads_back { let records = records_of_recipe start draws words processors in
        IfOk result (λ n. trace_of (take n output.new)
        ≡ Ok (record { processors = processors; records = records })) }
    ensures most { IfOk result (λ n. n ≤ 4000 * 16 + 8) }
    // whatever the geometry and the memory, no record is left, refused or made to wait
    ensures runs { OnOk result
        (RunsThrough words processors (records_of_recipe start draws words processors)) }
{
    if !is_lawful(draws, words, processors) {
        return Err(Refusal::Recipe);
    }
    let mut records = [UNUSED; MOST_RECORDS];
    let count = put_all(&mut records, start, draws, Bounds { words, processors });
    write_trace(output, processors, &records[..count])
}
