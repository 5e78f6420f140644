// The tables and the answer of a done command.
ghost use Rattle.std.specs.Prelude.{◌≡◌, ◌<◌, ◌≤◌, length, IfSome};
ghost use Rattle.protocol.specs.Places.{line_count};
ghost use Rattle.cluster.specs.Cases.{Sound, own_place, by_turn};
ghost use Rattle.cluster.specs.Doing.{state_left};
ghost use Rattle.cluster.specs.Finishing.{way_taken, bus_seen, placed, copy_left, lines_after, turns_after, processors_after, completed};
ghost use Rattle.cluster.specs.Settling.{locks_settled};
ghost use Rattle.cluster.specs.Waiting.{turn_raised};

use crate::case::Case;
use crate::cluster::Cluster;
use crate::cycles::cycles;
use crate::supply::Supply;
use crate::ways::Taken;
use protocol::acting::{word_answered, words_left};
use protocol::answer::{Completion, Supplier};
use protocol::line::Line;
use protocol::lock::LockEntry;
use protocol::state::State;

pub(crate) fn state_left(case: &Case, from: Option<Supplier>) -> State
    ensures { result ≡ state_left case.now.effect from }
{
    match from {
        Some(Supplier::Cache(_)) => case.effect.from_cache,
        _ => case.effect.from_memory,
    }
}

// Where the own line stands after the command: in the way taken, else where it was found.
pub(crate) fn own_place(case: &Case, taken: Option<Taken>) -> Option<usize>
    ensures { result ≡ own_place case.now.place taken }
{
    taken.map(|way| way.place).or(case.place)
}

pub(crate) fn chosen_by_turn(taken: Option<Taken>) -> bool
    ensures { result ≡ by_turn taken }
{
    taken.is_some_and(|way| way.by_turn)
}

// The own copy after the command.
pub(crate) fn copy_left(case: &Case, supply: Supply) -> Line
    ensures { result ≡ copy_left case.now supply }
{
    let left = state_left(case, supply.from);
    let words = words_left(case.command, case.address, supply.words);
    let copy = Line {
        state: left,
        block: case.block,
        words,
    };
    copy.with_state(left)
}

pub(crate) fn place_copy(lines: &mut [Line], place: Option<usize>, copy: Line)
    requires { IfSome place (λ i. i < length lines.old) }
    ensures { lines.new ≡ placed place copy lines.old }
{
    if let Some(i) = place {
        lines[i] = copy;
    }
}

impl Cluster {
    // The other caches see the bus command, if one is sent.
    fn see_bus(&self, lines: &mut [Line], case: &Case)
        ensures { let bus = case.now.effect.bus in
            let asking = case.now.processor in
            lines.new ≡ bus_seen self.now.geometry.measures bus asking case.now.block lines.old }
    {
        if let Some(bus) = case.effect.bus {
            self.snoop_others(lines, case.processor, case.block, bus);
        }
    }

    pub(crate) fn raise_turn(&mut self, processor: u8)
        requires { processor < self.old.geometry.measures.processors }
        ensures processors { let ways = self.old.geometry.measures.ways in
            self.new.processors ≡ turn_raised ways self.old.processors processor }
        ensures geometry { self.new.geometry ≡ self.old.geometry }
    {
        let ways = self.geometry.ways();
        let turn = self.processors[processor as usize].turn % ways;
        self.processors[processor as usize].turn = (turn + 1) % ways;
    }

    // The turn goes on only where it chose the way.
    pub(crate) fn pass_turn(&mut self, case: &Case, taken: Option<Taken>)
        requires { case.now.processor < self.old.geometry.measures.processors }
        ensures processors { let measures = self.old.geometry.measures in
            self.new.processors ≡ turns_after measures self.old.processors case.now taken }
        ensures geometry { self.new.geometry ≡ self.old.geometry }
    {
        if chosen_by_turn(taken) {
            self.raise_turn(case.processor);
        }
    }

    // The tables after a command that is not refused and does not wait. `sound` ties the case to
    // the lengths of tables that are lent to change, which no invariant can hold.
    pub(crate) fn finish(
        &mut self,
        lines: &mut [Line],
        locks: &mut [LockEntry],
        case: &Case,
        supply: Supply,
        taken: Option<Taken>,
        swapped_out: Option<u32>,
    ) -> Completion
        requires sound { let measures = self.old.geometry.measures in
            Sound measures (length lines.old) (length locks.old) case.now }
        requires way { IfSome taken (λ t. t.place < length lines.old) }
        ensures answer { let measures = self.old.geometry.measures in
            result ≡ completed measures locks.old case.now supply swapped_out }
        ensures lines { let measures = self.old.geometry.measures in
            lines.new ≡ lines_after measures lines.old case.now supply taken }
        ensures locks { let command = case.now.command in
            locks.new ≡ locks_settled command case.now.address locks.old case.now.entry }
        ensures processors { let measures = self.old.geometry.measures in
            let before = self.old.processors in
            self.new.processors ≡ processors_after measures before locks.old case.now taken }
        ensures geometry { self.new.geometry ≡ self.old.geometry }
        ensures bound { result.cycles ≤ 4000 }
    {
        let words = supply.words;
        self.see_bus(lines, case);
        place_copy(lines, own_place(case, taken), copy_left(case, supply));
        self.pass_turn(case, taken);
        let ul = self.settle_locks(locks, case);
        let costs = self.geometry.costs();
        Completion {
            word: word_answered(case.command, case.address, words),
            found: case.found,
            left: state_left(case, supply.from),
            bus: case.effect.bus,
            lk: case.effect.lk,
            ul,
            supplier: supply.from,
            swapped_out,
            cycles: cycles(
                &costs,
                supply.from,
                case.effect.bus,
                swapped_out.is_some(),
                ul,
            ),
        }
    }
}
