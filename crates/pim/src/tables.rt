// The statistics of a run as tables for people: each number under its name, with its part of a whole.
ghost use Rattle.std.specs.Prelude.{◌<◌};

use anyhow::Result;
use stats::statistics::Statistics;
use stats::tally::Tally;
use std::alloc::Global;
use std::io::Write;

const COMMANDS: [&str; 9] = ["R", "W", "DW", "RI", "RP", "RB", "LR", "UW", "U"];

const STATES: [&str; 5] = ["EM", "EC", "SM", "S", "I"];

const REFUSALS: [&str; 9] = ["03", "04", "05", "06", "07", "08", "09", "10", "11"];

// A number, and what part of the whole it is, in tenths of a percent.
fn put_part(out: &mut Vec<u8>, name: &str, value: u64, whole: u64) -> Result<()> {
    let tenths = value.saturating_mul(1000).saturating_add(whole / 2) / whole.max(1);
    let percent = tenths / 10;
    let tenth = tenths % 10;
    writeln!(out, "  {name:<22}{value:>12}{percent:>7}.{tenth} %")?;
    Ok(())
}

// A table of numbers that are parts of one whole.
fn put_parts(out: &mut Vec<u8>, title: &str, whole: u64, parts: &[(&str, u64)]) -> Result<()> {
    writeln!(out, "\n{title:<24}{whole:>12}")?;
    for (name, value) in parts {
        put_part(out, name, *value, whole)?;
    }
    Ok(())
}

fn sum(counts: &[u64]) -> u64 {
    let mut all = 0u64;
    for count in counts {
        all = all.saturating_add(*count);
    }
    all
}

fn put_run(out: &mut Vec<u8>, statistics: &Statistics) -> Result<()> {
    let summary = statistics.summary;
    writeln!(out, "processors{:>26}", statistics.processors)?;
    writeln!(out, "steps{:>31}", summary.steps)?;
    writeln!(out, "cycles{:>30}", summary.cycles)?;
    writeln!(out, "left{:>32}", summary.left)?;
    Ok(())
}

// The answers that one processor's command got, if it was issued.
fn put_command(out: &mut Vec<u8>, tally: &Tally, processor: usize, command: usize) -> Result<()>
    requires processor { processor < 8 }
    requires command { command < 9 }
{
    let at = processor * 9 + command;
    let done = tally.done[at];
    let waiting = tally.waiting[at];
    let refused = tally.refused[at];
    if done > 0 || waiting > 0 || refused > 0 {
        let name = COMMANDS[command];
        writeln!(
            out,
            "  {processor} {name:<20}{done:>12}{waiting:>12}{refused:>12}"
        )?;
    }
    Ok(())
}

fn put_commands(out: &mut Vec<u8>, tally: &Tally) -> Result<()> {
    writeln!(
        out,
        "\nprocessor and command           done     waiting     refused"
    )?;
    for processor in 0..8 {
        for command in 0..9 {
            put_command(out, tally, processor, command)?;
        }
    }
    let done = sum(&tally.done);
    let waiting = sum(&tally.waiting);
    let refused = sum(&tally.refused);
    writeln!(
        out,
        "  all                   {done:>12}{waiting:>12}{refused:>12}"
    )?;
    Ok(())
}

fn put_done(out: &mut Vec<u8>, tally: &Tally) -> Result<()> {
    let parts = [
        ("hits", tally.hits),
        ("misses", tally.misses),
        ("from_cache", tally.from_cache),
        ("from_memory", tally.from_memory),
        ("swap_outs", tally.swap_outs),
        ("bus.F", tally.sent_f),
        ("bus.FI", tally.sent_fi),
        ("bus.I", tally.sent_i),
        ("bus.LK", tally.sent_lk),
        ("bus.UL", tally.sent_ul),
    ];
    put_parts(out, "steps done", sum(&tally.done), &parts)
}

fn put_cycles(out: &mut Vec<u8>, statistics: &Statistics) -> Result<()> {
    let cycles = statistics.tally.cycles;
    let parts = [
        ("swap_in", cycles.swap_in),
        ("transfer", cycles.transfer),
        ("swap_out", cycles.swap_out),
        ("invalidation", cycles.invalidation),
        ("lock_signal", cycles.lock_signal),
    ];
    put_parts(out, "bus cycles", statistics.summary.cycles, &parts)
}

fn put_locks(out: &mut Vec<u8>, tally: &Tally) -> Result<()> {
    let mut lr = 0u64;
    for processor in 0..8 {
        lr = lr.saturating_add(tally.done[processor * 9 + 6]);
    }
    let hits = [
        ("lr_hits", tally.lr_hits),
        ("lr_hits_exclusive", tally.exclusive_lr_hits),
    ];
    put_parts(out, "LR done", lr, &hits)?;
    let unwaited = [("releases_unwaited", tally.unwaited_releases)];
    put_parts(out, "releases", tally.releases, &unwaited)
}

fn put_refusals(out: &mut Vec<u8>, tally: &Tally) -> Result<()> {
    let refused = sum(&tally.refused);
    writeln!(out, "\nsteps refused           {refused:>12}")?;
    for (place, name) in REFUSALS.iter().enumerate() {
        let count = tally.refusals[place + 3];
        if count > 0 {
            put_part(out, name, count, refused)?;
        }
    }
    Ok(())
}

fn put_end(out: &mut Vec<u8>, statistics: &Statistics) -> Result<()> {
    let lines = sum(&statistics.lines);
    writeln!(out, "\nlines at the end        {lines:>12}")?;
    for (place, name) in STATES.iter().enumerate() {
        put_part(out, name, statistics.lines[place], lines)?;
    }
    let blocks = sum(&statistics.copies);
    writeln!(out, "\nblocks by copies        {blocks:>12}")?;
    for (copies, count) in statistics.copies.iter().enumerate() {
        let name = DIGITS[copies];
        put_part(out, name, *count, blocks)?;
    }
    Ok(())
}

const DIGITS: [&str; 9] = ["0", "1", "2", "3", "4", "5", "6", "7", "8"];

/// The tables of a run.
pub fn as_tables(heap: Global, statistics: &Statistics) -> Result<Vec<u8>> {
    let mut out = Vec::new(heap);
    put_run(&mut out, statistics)?;
    put_commands(&mut out, &statistics.tally)?;
    put_done(&mut out, &statistics.tally)?;
    put_cycles(&mut out, statistics)?;
    put_locks(&mut out, &statistics.tally)?;
    put_refusals(&mut out, &statistics.tally)?;
    put_end(&mut out, statistics)?;
    Ok(out)
}
