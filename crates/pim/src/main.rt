// One command for a test floor's work on traces. The bytes are made by library calls; here the
// arguments are read, the input is read, and the output is written.
#![tactic(auto)]

mod arguments;
mod commands;
mod failure;
mod input;
mod numbers;
mod recipes;
mod setup;
mod tables;
mod telling;

use anyhow::{Context, Result};
use arguments::command;
use clap::ArgMatches;
use commands::{Done, perform};
use std::io::Write;
use std::process::ExitCode;

// What the subcommand gives is written only when it is whole.
fn write_done(rt: &HostRuntime, matches: &ArgMatches) -> Result<u8> {
    let Done { bytes, status } = perform(rt, matches)?;
    rt.stdout()
        .write_all(&bytes)
        .context("cannot write standard output")?;
    Ok(status)
}

fn answer(rt: &HostRuntime) -> Result<u8> {
    let heap = rt.alloc();
    let words: Vec<String> = std::env::args(rt)?
        .collect(heap)
        .context("cannot read the arguments")?;
    match command(heap)?.try_get_matches_from(words.as_slice()) {
        Ok(matches) => write_done(rt, &matches),
        Err(error) => {
            error.print(rt)?;
            Ok(error.exit_code() as u8)
        }
    }
}

fn main(rt: HostRuntime) -> Result<ExitCode> {
    match answer(&rt) {
        Ok(status) => Ok(ExitCode::from(status)),
        Err(error) => {
            eprintln!(rt; "pim: {error:#}")?;
            Ok(ExitCode::from(3))
        }
    }
}
