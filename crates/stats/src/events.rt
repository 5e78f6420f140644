// What one step of a run did.
ghost use Rattle.std.specs.Prelude.{◌≡◌, ◌<◌};
ghost use Rattle.stats.specs.Events;

use protocol::answer::{Answer, Completion, Supplier};
use protocol::command::{BusCommand, Command};
use protocol::state::State;
use text::step::Step;

// What a done step answers.
fn completion(step: &Step) -> Option<Completion>
    ensures { result ≡ Events.completion_of step.now.answer }
{
    match step.answer {
        Ok(Answer::Done(done)) => Some(done),
        Ok(Answer::Wait(_)) => None,
        Err(_) => None,
    }
}

pub(crate) fn is_done(step: &Step) -> bool
    ensures { result ≡ Events.is_done step.now }
{
    completion(step).is_some()
}

pub(crate) fn is_waiting(step: &Step) -> bool
    ensures { result ≡ Events.is_waiting step.now }
{
    matches!(step.answer, Ok(Answer::Wait(_)))
}

pub(crate) fn is_refused(step: &Step) -> bool
    ensures { result ≡ Events.is_refused step.now }
{
    step.answer.is_err()
}

pub(crate) fn refusal_number(step: &Step) -> Option<usize>
    ensures { result ≡ Events.refusal_in step.now.answer }
{
    match step.answer {
        Ok(_) => None,
        Err(refusal) => Some(refusal.number() as usize),
    }
}

pub(crate) fn is_hit(step: &Step) -> bool
    ensures { result ≡ Events.is_hit step.now }
{
    completion(step).is_some_and(|done| done.found.is_valid())
}

pub(crate) fn is_miss(step: &Step) -> bool
    ensures { result ≡ Events.is_miss step.now }
{
    completion(step).is_some_and(|done| !done.found.is_valid())
}

pub(crate) fn is_from_cache(step: &Step) -> bool
    ensures { result ≡ Events.is_from_cache step.now }
{
    completion(step).is_some_and(|done| matches!(done.supplier, Some(Supplier::Cache(_))))
}

pub(crate) fn is_from_memory(step: &Step) -> bool
    ensures { result ≡ Events.is_from_memory step.now }
{
    completion(step).is_some_and(|done| matches!(done.supplier, Some(Supplier::Memory)))
}

pub(crate) fn swaps_out(step: &Step) -> bool
    ensures { result ≡ Events.swaps_out step.now }
{
    completion(step).is_some_and(|done| done.swapped_out.is_some())
}

pub(crate) fn sends_f(step: &Step) -> bool
    ensures { result ≡ Events.sends_f step.now }
{
    completion(step).is_some_and(|done| matches!(done.bus, Some(BusCommand::F)))
}

pub(crate) fn sends_fi(step: &Step) -> bool
    ensures { result ≡ Events.sends_fi step.now }
{
    completion(step).is_some_and(|done| matches!(done.bus, Some(BusCommand::FI)))
}

pub(crate) fn sends_i(step: &Step) -> bool
    ensures { result ≡ Events.sends_i step.now }
{
    completion(step).is_some_and(|done| matches!(done.bus, Some(BusCommand::I)))
}

pub(crate) fn sends_lk(step: &Step) -> bool
    ensures { result ≡ Events.sends_lk step.now }
{
    completion(step).is_some_and(|done| done.lk)
}

pub(crate) fn sends_ul(step: &Step) -> bool
    ensures { result ≡ Events.sends_ul step.now }
{
    completion(step).is_some_and(|done| done.ul)
}

fn is_lr(command: Command) -> bool
    ensures { result ≡ Events.is_lr command }
{
    matches!(command, Command::LR)
}

pub(crate) fn is_lr_hit(step: &Step) -> bool
    ensures { result ≡ Events.is_lr_hit step.now }
{
    is_lr(step.request.command) && is_hit(step)
}

pub(crate) fn is_exclusive_lr_hit(step: &Step) -> bool
    ensures { result ≡ Events.is_exclusive_lr_hit step.now }
{
    is_lr(step.request.command)
        && completion(step).is_some_and(|done| matches!(done.found, State::EM | State::EC))
}

fn unlocks(command: Command) -> bool
    ensures { result ≡ Events.unlocks command }
{
    matches!(command, Command::UW(_) | Command::U)
}

pub(crate) fn is_release(step: &Step) -> bool
    ensures { result ≡ Events.is_release step.now }
{
    unlocks(step.request.command) && is_done(step)
}

pub(crate) fn is_unwaited_release(step: &Step) -> bool
    ensures { result ≡ Events.is_unwaited_release step.now }
{
    is_release(step) && !sends_ul(step)
}

// How many commands there are.
pub(crate) const COMMANDS: usize = 9;

// The place of a command in the order R W DW RI RP RB LR UW U.
pub(crate) fn place_of(command: Command) -> usize
    ensures place { result ≡ Events.place_of command }
    ensures within { result < 9 }
{
    match command {
        Command::R => 0,
        Command::W(_) => 1,
        Command::DW(_) => 2,
        Command::RI => 3,
        Command::RP => 4,
        Command::RB => 5,
        Command::LR => 6,
        Command::UW(_) => 7,
        Command::U => 8,
    }
}
