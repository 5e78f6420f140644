// The steps of a run, counted by what they did.
ghost use Rattle.std.specs.Prelude.{◌≡◌, ◌+◌, if◌then◌else◌};
ghost use Rattle.stats.specs.Events.{cell_of};
ghost use Rattle.stats.specs.Tallying.{wrapped, one_more_at, no_steps, causes_added, added};

use crate::events;
use protocol::measures::Costs;
use text::step::Step;

/// Bus cycles by what caused them.
#[derive(Clone, Copy)]
pub struct Causes {
    /// Blocks that memory supplied.
    pub swap_in: u64,
    /// Blocks that another cache supplied.
    pub transfer: u64,
    /// Blocks swapped out.
    pub swap_out: u64,
    /// Bus commands I.
    pub invalidation: u64,
    /// UL of done steps, and WAIT answers.
    pub lock_signal: u64,
}

/// Steps counted by what they did.
#[derive(Clone, Copy)]
pub struct Tally {
    /// Steps answered done, for each of eight processors and nine commands: ordered by processor,
    /// then by command as R W DW RI RP RB LR UW U.
    pub done: [u64; 72],
    /// Steps answered WAIT, in the same order.
    pub waiting: [u64; 72],
    /// Refused steps, in the same order.
    pub refused: [u64; 72],
    /// Refused steps by the number of the refusal.
    pub refusals: [u64; 16],
    /// Done steps whose state found is not I.
    pub hits: u64,
    /// Done steps whose state found is I.
    pub misses: u64,
    /// Done steps whose block another cache supplied.
    pub from_cache: u64,
    /// Done steps whose block memory supplied.
    pub from_memory: u64,
    /// Done steps that swapped a block out.
    pub swap_outs: u64,
    /// Done steps that sent F.
    pub sent_f: u64,
    /// Done steps that sent FI.
    pub sent_fi: u64,
    /// Done steps that sent I.
    pub sent_i: u64,
    /// Done steps that sent LK.
    pub sent_lk: u64,
    /// Done steps that sent UL.
    pub sent_ul: u64,
    /// Done LR steps whose state found is not I.
    pub lr_hits: u64,
    /// Done LR steps whose state found is EM or EC.
    pub exclusive_lr_hits: u64,
    /// Done U and UW steps.
    pub releases: u64,
    /// Done U and UW steps that sent no UL: nobody waited.
    pub unwaited_releases: u64,
    /// Bus cycles of all steps by cause.
    pub cycles: Causes,
}

// Where a step of a kind is counted in a table of processors and commands.
fn cell(counts: bool, step: &Step) -> Option<usize>
    ensures { result ≡ cell_of counts step.now.request }
{
    let processor = step.request.processor as usize;
    if !counts || processor >= 8 {
        return None;
    }
    Some(processor * 9 + events::place_of(step.request.command))
}

// Counts a step at a place, if there is one in the table.
pub(crate) fn count_at(counts: &mut [u64], place: Option<usize>)
    ensures { counts.new ≡ one_more_at counts.old place }
{
    match place {
        Some(place) if place < counts.len() => counts[place] = counts[place].wrapping_add(1),
        _ => {}
    }
}

fn count_if(count: &mut u64, counts: bool)
    ensures { count.new ≡ wrapped (count.old + (if counts then 1 else 0)) }
{
    *count = count.wrapping_add(counts as u64);
}

fn cost_if(cycles: &mut u64, cost: u32, costs: bool)
    ensures { cycles.new ≡ wrapped (cycles.old + (if costs then cost else 0)) }
{
    *cycles = cycles.wrapping_add(if costs { cost as u64 } else { 0 });
}

impl Causes {
    /// No bus cycles.
    pub const NONE: Causes = Causes {
        swap_in: 0,
        transfer: 0,
        swap_out: 0,
        invalidation: 0,
        lock_signal: 0,
    };

    fn add(&mut self, costs: &Costs, step: &Step)
        ensures { self.new ≡ causes_added costs.now step.now self.old }
    {
        let signals = events::sends_ul(step) || events::is_waiting(step);
        cost_if(
            &mut self.swap_in,
            costs.swap_in,
            events::is_from_memory(step),
        );
        cost_if(
            &mut self.transfer,
            costs.transfer,
            events::is_from_cache(step),
        );
        cost_if(&mut self.swap_out, costs.swap_out, events::swaps_out(step));
        cost_if(
            &mut self.invalidation,
            costs.invalidation,
            events::sends_i(step),
        );
        cost_if(&mut self.lock_signal, costs.lock_signal, signals);
    }
}

impl Tally {
    /// No steps.
    pub fn empty() -> Tally
        ensures { result ≡ no_steps }
    {
        Tally {
            done: [0; 72],
            waiting: [0; 72],
            refused: [0; 72],
            refusals: [0; 16],
            hits: 0,
            misses: 0,
            from_cache: 0,
            from_memory: 0,
            swap_outs: 0,
            sent_f: 0,
            sent_fi: 0,
            sent_i: 0,
            sent_lk: 0,
            sent_ul: 0,
            lr_hits: 0,
            exclusive_lr_hits: 0,
            releases: 0,
            unwaited_releases: 0,
            cycles: Causes::NONE,
        }
    }

    /// Adds a step of a run whose bus costs are given. Numbers past 2^64 - 1 begin again at 0: no
    /// run has so many steps.
    pub fn add(&mut self, costs: &Costs, step: &Step)
        ensures { self.new ≡ added costs.now step.now self.old }
    {
        count_at(&mut self.done, cell(events::is_done(step), step));
        count_at(&mut self.waiting, cell(events::is_waiting(step), step));
        count_at(&mut self.refused, cell(events::is_refused(step), step));
        count_at(&mut self.refusals, events::refusal_number(step));
        count_if(&mut self.hits, events::is_hit(step));
        count_if(&mut self.misses, events::is_miss(step));
        count_if(&mut self.from_cache, events::is_from_cache(step));
        count_if(&mut self.from_memory, events::is_from_memory(step));
        count_if(&mut self.swap_outs, events::swaps_out(step));
        count_if(&mut self.sent_f, events::sends_f(step));
        count_if(&mut self.sent_fi, events::sends_fi(step));
        count_if(&mut self.sent_i, events::sends_i(step));
        count_if(&mut self.sent_lk, events::sends_lk(step));
        count_if(&mut self.sent_ul, events::sends_ul(step));
        count_if(&mut self.lr_hits, events::is_lr_hit(step));
        count_if(
            &mut self.exclusive_lr_hits,
            events::is_exclusive_lr_hit(step),
        );
        count_if(&mut self.releases, events::is_release(step));
        count_if(
            &mut self.unwaited_releases,
            events::is_unwaited_release(step),
        );
        self.cycles.add(costs, step);
    }
}
