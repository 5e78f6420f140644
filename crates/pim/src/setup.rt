// The cluster and the memory that the options name.
use crate::failure::{cluster_refused, dead_refused, words_refused};
use anyhow::Result;
use clap::ArgMatches;
use memory::dead::DeadList;
use memory::screen::Screen;
use memory::word_table::{WordTable, check_table};
use protocol::geometry::Geometry;
use protocol::measures::{Costs, Measures};
use protocol::refusal::Refusal;
use std::alloc::Global;

/// A geometry, the words of a memory, and its dead blocks.
#[derive(Drop)]
pub struct Setup {
    pub geometry: Geometry,
    words: Vec<u32>,
    dead: DeadList,
}

// No memory has more words, so no more are asked for.
const MOST_WORDS: usize = 4_194_304;

// Every number has a default, so the option is there.
fn number(options: &ArgMatches, name: &str) -> u32 {
    options.get_one::<u32>(name).unwrap_or(0)
}

fn measures(options: &ArgMatches, processors: u8) -> Measures {
    Measures {
        processors,
        columns: number(options, "columns") as usize,
        ways: number(options, "ways") as usize,
        lock_entries: number(options, "lock-entries") as usize,
        costs: Costs {
            swap_in: number(options, "swap-in"),
            transfer: number(options, "transfer"),
            invalidation: number(options, "invalidation"),
            swap_out: number(options, "swap-out"),
            lock_signal: number(options, "lock-signal"),
        },
    }
}

// Which of them lies outside its limits; said only where they are refused.
fn outside(measures: &Measures) -> &'static str {
    if !measures.columns.is_power_of_two() || measures.columns > 256 {
        "columns not a power of two from 1 to 256"
    } else if measures.ways < 1 || measures.ways > 4 {
        "ways not 1 to 4"
    } else if measures.lock_entries < 1 || measures.lock_entries > 4 {
        "lock entries not 1 to 4"
    } else {
        "a cost over 1000 bus cycles"
    }
}

fn zeros(heap: Global, count: usize) -> Result<Vec<u32>> {
    if count > MOST_WORDS {
        return Err(words_refused(Refusal::TableLength));
    }
    let words = vec![in heap; 0; count]?;
    check_table(&words).map_err(words_refused)?;
    Ok(words)
}

fn dead_blocks(heap: Global, options: &ArgMatches) -> Result<DeadList> {
    let mut numbers = Vec::new(heap);
    if let Some(blocks) = options.get_many::<u32>("dead") {
        for block in blocks {
            numbers.push(block?)?;
        }
    }
    let mut list = DeadList::new();
    list.fill(&numbers).map_err(dead_refused)?;
    Ok(list)
}

impl Setup {
    /// What the options name, for a trace's processors. Refuses measures outside their limits, then
    /// an unfit number of words, then over 16 dead blocks.
    pub fn of(heap: Global, options: &ArgMatches, processors: u8) -> Result<Setup> {
        let measures = measures(options, processors);
        let geometry = Geometry::new(measures).map_err(|refusal| cluster_refused(
            refusal,
            outside(&measures),
        ))?;
        Ok(Setup {
            geometry,
            words: zeros(heap, number(options, "words") as usize)?,
            dead: dead_blocks(heap, options)?,
        })
    }

    /// The memory over the words.
    pub fn memory(&mut self) -> Screen<WordTable<'_>> {
        Screen::new(WordTable::new(&mut self.words), self.dead)
    }
}
