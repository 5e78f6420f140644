// The numbers of a run under their names, in one order.
ghost use Rattle.std.specs.Prelude.{◌≡◌, ◌<◌, ◌≤◌, ◌++◌, [], ◌∷◌, map, IfOk, OnOk, codes, slice_index_or};
ghost use Rattle.std.specs.String.{string_bytes};
ghost use Rattle.stats.specs.Naming;

use crate::events::COMMANDS;
use crate::statistics::Statistics;
use crate::tally::{Causes, Tally};
use std::alloc::{AllocError, Global};

/// A number of a run, under its name.
#[derive(Drop)]
pub struct Named {
    /// As in docs/FORMATS.md, "Statistics of a run".
    pub name: String,
    /// The number itself.
    pub value: u64,
}

// Names joined by a point.
fn joined(heap: Global, first: &str, second: &str) -> Result<String, AllocError>
    ensures { IfOk result (λ s. string_bytes s ≡ first.now ++ (codes "." ++ second.now)) }
{
    let mut name = String::from_str(heap, first)?;
    name.push_str(".")?;
    name.push_str(second)?;
    Ok(name)
}

fn digit(number: u8) -> &'static str
    requires { number < 8 }
    ensures { result.now ≡ Naming.digit_of number }
{
    match number {
        0 => "0",
        1 => "1",
        2 => "2",
        3 => "3",
        4 => "4",
        5 => "5",
        6 => "6",
        _ => "7",
    }
}

fn command_name(place: usize) -> &'static str
    requires { place < 9 }
    ensures { result.now ≡ slice_index_or Naming.command_names place [] }
{
    match place {
        0 => "R",
        1 => "W",
        2 => "DW",
        3 => "RI",
        4 => "RP",
        5 => "RB",
        6 => "LR",
        7 => "UW",
        _ => "U",
    }
}

fn put(list: &mut Vec<Named>, name: String, value: u64) -> Result<(), AllocError>
    ensures { let entry = Naming.entry (string_bytes name) value in
        OnOk result (Naming.entries list.new.items ≡ Naming.entries list.old.items ++ entry ∷ []) }
{
    list.push(Named { name, value })?;
    Ok(())
}

fn put_all(list: &mut Vec<Named>, heap: Global, numbers: &[(&str, u64)]) -> Result<(), AllocError>
    ensures { let more = map (λ n. Naming.entry n.0.now n.1) numbers.now in
        OnOk result (Naming.entries list.new.items ≡ Naming.entries list.old.items ++ more) }
{
    for (name, value) in numbers {
        put(list, String::from_str(heap, name)?, *value)?;
    }
    Ok(())
}

fn answer_name(
    heap: Global,
    kind: &str,
    processor: u8,
    command: usize,
) -> Result<String, AllocError>
    requires processor { processor < 8 }
    requires command { command < 9 }
    ensures { IfOk result (λ s. string_bytes s ≡ Naming.answer_name kind.now processor command) }
{
    let answers = joined(heap, kind, digit(processor))?;
    joined(heap, &answers, command_name(command))
}

// How a processor's steps with a command were answered.
fn put_answers(
    list: &mut Vec<Named>,
    heap: Global,
    tally: &Tally,
    processor: u8,
    command: usize,
) -> Result<(), AllocError>
    requires processor { processor < 8 }
    requires command { command < 9 }
    ensures { let answers = Naming.answers_of tally.now processor command in
        OnOk result (Naming.entries list.new.items ≡ Naming.entries list.old.items ++ answers) }
{
    let cell = processor as usize * COMMANDS + command;
    let done = answer_name(heap, "done", processor, command)?;
    let waiting = answer_name(heap, "waiting", processor, command)?;
    let refused = answer_name(heap, "refused", processor, command)?;
    let numbers = [
        (done.as_str(), tally.done[cell]),
        (waiting.as_str(), tally.waiting[cell]),
        (refused.as_str(), tally.refused[cell]),
    ];
    put_all(list, heap, &numbers)
}

fn put_processor(
    list: &mut Vec<Named>,
    heap: Global,
    tally: &Tally,
    processor: u8,
) -> Result<(), AllocError>
    requires { processor < 8 }
    ensures { let answers = Naming.processor_of tally.now processor in
        OnOk result (Naming.entries list.new.items ≡ Naming.entries list.old.items ++ answers) }
{
    for command in 0..COMMANDS {
        put_answers(list, heap, tally, processor, command)?;
    }
    Ok(())
}

fn put_processors(
    list: &mut Vec<Named>,
    heap: Global,
    tally: &Tally,
    processors: u8,
) -> Result<(), AllocError>
    requires { processors ≤ 8 }
    ensures { let answers = Naming.processors_of tally.now processors in
        OnOk result (Naming.entries list.new.items ≡ Naming.entries list.old.items ++ answers) }
{
    for processor in 0..processors {
        put_processor(list, heap, tally, processor)?;
    }
    Ok(())
}

fn put_done(list: &mut Vec<Named>, heap: Global, tally: &Tally) -> Result<(), AllocError>
    ensures { let more = Naming.done_of tally.now in
        OnOk result (Naming.entries list.new.items ≡ Naming.entries list.old.items ++ more) }
{
    let numbers = [
        ("hits", tally.hits),
        ("misses", tally.misses),
        ("from_cache", tally.from_cache),
        ("from_memory", tally.from_memory),
        ("swap_outs", tally.swap_outs),
        ("bus.F", tally.sent_f),
        ("bus.FI", tally.sent_fi),
        ("bus.I", tally.sent_i),
        ("bus.LK", tally.sent_lk),
        ("bus.UL", tally.sent_ul),
    ];
    put_all(list, heap, &numbers)
}

fn put_cycles(list: &mut Vec<Named>, heap: Global, cycles: &Causes) -> Result<(), AllocError>
    ensures { let more = Naming.cycles_of cycles.now in
        OnOk result (Naming.entries list.new.items ≡ Naming.entries list.old.items ++ more) }
{
    let numbers = [
        ("cycles.swap_in", cycles.swap_in),
        ("cycles.transfer", cycles.transfer),
        ("cycles.swap_out", cycles.swap_out),
        ("cycles.invalidation", cycles.invalidation),
        ("cycles.lock_signal", cycles.lock_signal),
    ];
    put_all(list, heap, &numbers)
}

fn put_locks(list: &mut Vec<Named>, heap: Global, tally: &Tally) -> Result<(), AllocError>
    ensures { let more = Naming.locks_of tally.now in
        OnOk result (Naming.entries list.new.items ≡ Naming.entries list.old.items ++ more) }
{
    let numbers = [
        ("lr_hits", tally.lr_hits),
        ("lr_hits_exclusive", tally.exclusive_lr_hits),
        ("releases", tally.releases),
        ("releases_unwaited", tally.unwaited_releases),
    ];
    put_all(list, heap, &numbers)
}

fn put_refusals(list: &mut Vec<Named>, heap: Global, refusals: &[u64; 16]) -> Result<(), AllocError>
    ensures { let more = Naming.refusals_of refusals.now in
        OnOk result (Naming.entries list.new.items ≡ Naming.entries list.old.items ++ more) }
{
    let numbers = [
        ("refusals.03", refusals[3]),
        ("refusals.04", refusals[4]),
        ("refusals.05", refusals[5]),
        ("refusals.06", refusals[6]),
        ("refusals.07", refusals[7]),
        ("refusals.08", refusals[8]),
        ("refusals.09", refusals[9]),
        ("refusals.10", refusals[10]),
        ("refusals.11", refusals[11]),
    ];
    put_all(list, heap, &numbers)
}

impl Statistics {
    fn put_run(&self, list: &mut Vec<Named>, heap: Global) -> Result<(), AllocError>
        ensures { let more = Naming.run_of self.now in
            OnOk result (Naming.entries list.new.items ≡ Naming.entries list.old.items ++ more) }
    {
        let numbers = [
            ("processors", self.processors as u64),
            ("steps", self.summary.steps as u64),
            ("cycles", self.summary.cycles),
            ("left", self.summary.left as u64),
        ];
        put_all(list, heap, &numbers)
    }

    fn put_end(&self, list: &mut Vec<Named>, heap: Global) -> Result<(), AllocError>
        ensures { let more = Naming.end_of self.now in
            OnOk result (Naming.entries list.new.items ≡ Naming.entries list.old.items ++ more) }
    {
        let numbers = [
            ("lines.EM", self.lines[0]),
            ("lines.EC", self.lines[1]),
            ("lines.SM", self.lines[2]),
            ("lines.S", self.lines[3]),
            ("lines.I", self.lines[4]),
            ("copies.0", self.copies[0]),
            ("copies.1", self.copies[1]),
            ("copies.2", self.copies[2]),
            ("copies.3", self.copies[3]),
            ("copies.4", self.copies[4]),
            ("copies.5", self.copies[5]),
            ("copies.6", self.copies[6]),
            ("copies.7", self.copies[7]),
            ("copies.8", self.copies[8]),
        ];
        put_all(list, heap, &numbers)
    }

    /// The numbers under their names, in the order of docs/FORMATS.md. Only want of memory is an
    /// error.
    pub fn named(&self, heap: Global) -> Result<Vec<Named>, AllocError>
        ensures { IfOk result (λ list. Naming.entries list.items ≡ Naming.numbers_of self.now) }
    {
        let mut list = Vec::new(heap);
        self.put_run(&mut list, heap)?;
        put_processors(&mut list, heap, &self.tally, self.processors.min(8))?;
        put_done(&mut list, heap, &self.tally)?;
        put_cycles(&mut list, heap, &self.tally.cycles)?;
        put_locks(&mut list, heap, &self.tally)?;
        put_refusals(&mut list, heap, &self.tally.refusals)?;
        self.put_end(&mut list, heap)?;
        Ok(list)
    }
}
