// What each subcommand does.
use crate::failure::{text_refused, trace_refused};
use crate::input::read_input;
use crate::numbers::{as_csv, as_json};
use crate::recipes::trace_of_recipe;
use crate::setup::Setup;
use crate::tables::as_tables;
use crate::telling::{read_trace, told, verdict};
use anyhow::{Result, anyhow};
use clap::ArgMatches;
use counting::counting::count_trace;
use judging::comparing::Verdict;
use judging::judging::judge;
use run::listing::list_trace;
use stats::statistics::{Statistics, trace_statistics};
use std::alloc::Global;
use trace::writing::write_trace;
use trace_text::reading::read_text;
use trace_text::writing::write_text;

/// What is written on standard output, and the status.
#[derive(Drop)]
pub struct Done {
    pub bytes: Vec<u8>,
    pub status: u8,
}

fn good(bytes: Vec<u8>) -> Done {
    Done { bytes, status: 0 }
}

fn list(heap: Global, options: &ArgMatches, input: &[u8]) -> Result<Vec<u8>> {
    let trace = read_trace(input)?;
    let mut setup = Setup::of(heap, options, trace.processors())?;
    let geometry = setup.geometry;
    Ok(list_trace(heap, geometry, &mut setup.memory(), trace)?)
}

fn census(heap: Global, options: &ArgMatches, input: &[u8]) -> Result<Vec<u8>> {
    let trace = read_trace(input)?;
    let mut setup = Setup::of(heap, options, trace.processors())?;
    let geometry = setup.geometry;
    Ok(count_trace(heap, geometry, &mut setup.memory(), trace)?)
}

fn statistics(heap: Global, options: &ArgMatches, input: &[u8]) -> Result<Statistics> {
    let trace = read_trace(input)?;
    let mut setup = Setup::of(heap, options, trace.processors())?;
    let geometry = setup.geometry;
    Ok(trace_statistics(heap, geometry, &mut setup.memory(), trace)?)
}

fn run(heap: Global, options: &ArgMatches, input: &[u8]) -> Result<Vec<u8>> {
    let statistics = statistics(heap, options, input)?;
    if options.get_flag("json") {
        as_json(heap, &statistics)
    } else if options.get_flag("csv") {
        as_csv(heap, &statistics)
    } else {
        as_tables(heap, &statistics)
    }
}

fn trace_of_text(heap: Global, text: &[u8]) -> Result<Vec<u8>> {
    let read = read_text(heap, text)?.map_err(text_refused)?;
    let mut output = vec![in heap; 0u8; read.records.len() * 16 + 8]?;
    write_trace(&mut output, read.processors, &read.records).map_err(|refusal| trace_refused(
        refusal,
        "the text is read, but is no trace",
    ))?;
    Ok(output)
}

// The subcommands that read one input.
fn perform_one(heap: Global, name: &str, options: &ArgMatches, input: &[u8]) -> Result<Vec<u8>> {
    match name {
        "list" => list(heap, options, input),
        "run" => run(heap, options, input),
        "census" => census(heap, options, input),
        "text" => Ok(write_text(heap, &read_trace(input)?)?),
        "trace" => trace_of_text(heap, input),
        "check" => told(heap, input),
        _ => Err(anyhow!("no such subcommand")),
    }
}

// A listing that differs is no error: it has a status of its own.
fn judged(heap: Global, options: &ArgMatches, trace: &[u8], listing: &[u8]) -> Result<Done> {
    let trace = read_trace(trace)?;
    let mut setup = Setup::of(heap, options, trace.processors())?;
    let geometry = setup.geometry;
    let judgement = judge(heap, geometry, &mut setup.memory(), trace, listing)?;
    let status = match judgement.verdict {
        Verdict::Agree => 0,
        Verdict::Differ(_) => 1,
    };
    let bytes = verdict(heap, &judgement, listing)?;
    Ok(Done { bytes, status })
}

/// Does what the command line asks for.
pub fn perform(rt: &HostRuntime, matches: &ArgMatches) -> Result<Done> {
    let heap = rt.alloc();
    let Some((name, options)) = matches.subcommand() else {
        return Err(anyhow!("no subcommand"));
    };
    if name == "recipe" {
        return Ok(good(trace_of_recipe(heap, options)?));
    }
    let file = if name == "trace" { "TEXT" } else { "TRACE" };
    let input = read_input(rt, options.get_str(file))?;
    if name == "judge" {
        let listing = read_input(rt, options.get_str("LISTING"))?;
        return judged(heap, options, &input, &listing);
    }
    Ok(good(perform_one(heap, name, options, &input)?))
}
