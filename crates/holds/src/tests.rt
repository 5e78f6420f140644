// Holds and bumps on values worked out by hand.
use crate::bump::bump;
use crate::hold::{Hold, Released, Taken};
use cluster::cluster::Cluster;
use memory::dead::DeadList;
use memory::memory::Memory;
use memory::screen::Screen;
use memory::word_table::WordTable;
use protocol::answer::Answer;
use protocol::command::{Command, Request};
use protocol::geometry::Geometry;
use protocol::line::Line;
use protocol::lock::{LockEntry, LockState};
use protocol::measures::{Costs, Measures};
use protocol::refusal::Refusal;
use std::process::Abort;
use std::test::Fail;

// The word of a done answer, the holder that a waiting one names, or a refusal's number.
#[derive(Clone, Copy, PartialEq, Eq, Debug)]
enum Seen {
    Done(u32),
    Wait(u8),
    Refused(u8),
}

fn show(answer: Result<Answer, Refusal>) -> Seen {
    match answer {
        Ok(Answer::Done(done)) => Seen::Done(done.word),
        Ok(Answer::Wait(hit)) => Seen::Wait(hit.holder),
        Err(refusal) => Seen::Refused(refusal.number()),
    }
}

// Two processors with one line and one lock entry each.
#[derive(Drop)]
struct Pair {
    cluster: Cluster,
    lines: [Line; 2],
    locks: [LockEntry; 2],
}

impl Pair {
    fn new() -> Result<Pair, Fail> {
        let measures = Measures {
            processors: 2,
            columns: 1,
            ways: 1,
            lock_entries: 1,
            costs: Costs::STANDARD,
        };
        let geometry = Geometry::new(measures).ok().ok_or("geometry")?;
        Ok(Pair {
            cluster: Cluster::at_rest(geometry),
            lines: [Line::BLANK; 2],
            locks: [LockEntry::BLANK; 2],
        })
    }

    fn issue<M: Memory>(
        &mut self,
        memory: &mut M,
        processor: u8,
        command: Command,
        address: u32,
    ) -> Seen {
        let request = Request {
            processor,
            command,
            address,
        };
        show(
            self.cluster
                .issue(&mut self.lines, &mut self.locks, memory, request),
        )
    }

    fn bump<M: Memory>(&mut self, memory: &mut M, processor: u8, address: u32) -> Seen {
        show(bump(
            &mut self.cluster,
            &mut self.lines,
            &mut self.locks,
            memory,
            processor,
            address,
        ))
    }

    fn held<M: Memory>(
        &mut self,
        rt: &impl Abort,
        memory: &mut M,
        processor: u8,
        address: u32,
    ) -> Hold {
        match Hold::take(
            &mut self.cluster,
            &mut self.lines,
            &mut self.locks,
            memory,
            processor,
            address,
        ) {
            Taken::Held(hold, _) => hold,
            Taken::NotHeld(_) => panic!(rt; "not held"),
        }
    }

    fn release<M: Memory>(&mut self, memory: &mut M, hold: Hold) -> Released {
        hold.release(&mut self.cluster, &mut self.lines, &mut self.locks, memory)
    }

    fn release_with<M: Memory>(&mut self, memory: &mut M, hold: Hold, word: u32) -> Released {
        hold.release_with(
            &mut self.cluster,
            &mut self.lines,
            &mut self.locks,
            memory,
            word,
        )
    }
}

fn ended(rt: &impl Abort, released: Released) -> Seen {
    match released {
        Released::Ended(answer) => show(answer),
        Released::Back(hold, _) => {
            hold.lay_down();
            panic!(rt; "given back")
        }
    }
}

fn back(rt: &impl Abort, released: Released) -> (Hold, Seen) {
    match released {
        Released::Ended(_) => panic!(rt; "ended"),
        Released::Back(hold, answer) => (hold, show(answer)),
    }
}

#[test]
fn bump_at_the_top(rt: HostRuntime) -> Result<(), Fail> {
    let mut words = [0xFFFF_FFFF, 7, 0, 0];
    let mut memory = WordTable::new(&mut words);
    let mut pair = Pair::new()?;
    assert_eq!(rt; pair.bump(&mut memory, 0, 0), Seen::Done(0));
    assert_eq!(rt; pair.issue(&mut memory, 0, Command::R, 0), Seen::Done(0));
    assert_eq!(rt; pair.issue(&mut memory, 0, Command::R, 1), Seen::Done(7));
    assert_eq!(rt; pair.bump(&mut memory, 1, 0), Seen::Done(0));
    assert_eq!(rt; pair.issue(&mut memory, 1, Command::R, 0), Seen::Done(1));
    Ok(())
}

#[test]
fn bumps_that_take_no_lock(rt: HostRuntime) -> Result<(), Fail> {
    let mut words = [0; 16];
    let mut memory = WordTable::new(&mut words);
    let mut pair = Pair::new()?;
    let hold = pair.held(&rt, &mut memory, 0, 0);
    assert_eq!(rt; pair.bump(&mut memory, 0, 0), Seen::Refused(6));
    assert_eq!(rt; pair.bump(&mut memory, 0, 4), Seen::Refused(7));
    assert_eq!(rt; pair.bump(&mut memory, 1, 16), Seen::Refused(4));
    assert_eq!(rt; pair.bump(&mut memory, 1, 0), Seen::Wait(0));
    assert_eq!(rt; pair.bump(&mut memory, 1, 0), Seen::Refused(5));
    assert_eq!(rt; ended(&rt, pair.release(&mut memory, hold)), Seen::Done(0));
    assert_eq!(rt; pair.bump(&mut memory, 1, 0), Seen::Done(0));
    assert_eq!(rt; pair.issue(&mut memory, 1, Command::R, 0), Seen::Done(1));
    Ok(())
}

// The line of the locked block is replaced by one of a dead block, which memory does not take back.
#[test]
fn a_release_that_memory_refuses(rt: HostRuntime) -> Result<(), Fail> {
    let mut words = [0; 16];
    let mut dead = DeadList::new();
    assert!(rt; dead.fill(&[2]).is_ok());
    let mut memory = Screen::new(WordTable::new(&mut words), dead);
    let mut pair = Pair::new()?;
    let hold = pair.held(&rt, &mut memory, 0, 0);
    assert_eq!(rt;
        pair.issue(&mut memory, 0, Command::DW(7), 8),
        Seen::Done(0)
    );
    let (hold, answer) = back(&rt, pair.release_with(&mut memory, hold, 5));
    assert_eq!(rt; answer, Seen::Refused(11));
    assert_eq!(rt;
        pair.issue(&mut memory, 0, Command::LR, 0),
        Seen::Refused(6)
    );
    assert_eq!(rt; pair.issue(&mut memory, 0, Command::RP, 8), Seen::Done(7));
    assert_eq!(rt;
        ended(&rt, pair.release_with(&mut memory, hold, 5)),
        Seen::Done(0)
    );
    assert_eq!(rt; pair.issue(&mut memory, 0, Command::R, 0), Seen::Done(5));
    Ok(())
}

// No commands lead to two locks in one block: the second is put into the table by hand.
#[test]
fn a_release_that_waits(rt: HostRuntime) -> Result<(), Fail> {
    let mut words = [0; 16];
    let mut memory = WordTable::new(&mut words);
    let mut pair = Pair::new()?;
    let hold = pair.held(&rt, &mut memory, 0, 0);
    assert_eq!(rt; pair.issue(&mut memory, 0, Command::R, 4), Seen::Done(0));
    pair.locks[1] = LockEntry {
        state: LockState::L,
        address: 1,
    };
    let (hold, answer) = back(&rt, pair.release_with(&mut memory, hold, 5));
    assert_eq!(rt; answer, Seen::Wait(1));
    let (hold, answer) = back(&rt, pair.release(&mut memory, hold));
    assert_eq!(rt; answer, Seen::Refused(5));
    assert_eq!(rt; pair.issue(&mut memory, 1, Command::U, 1), Seen::Done(0));
    assert_eq!(rt;
        ended(&rt, pair.release_with(&mut memory, hold, 5)),
        Seen::Done(0)
    );
    Ok(())
}

#[test]
fn a_release_of_a_lock_that_is_gone(rt: HostRuntime) -> Result<(), Fail> {
    let mut words = [0; 16];
    let mut memory = WordTable::new(&mut words);
    let mut pair = Pair::new()?;
    let hold = pair.held(&rt, &mut memory, 0, 0);
    assert_eq!(rt; pair.issue(&mut memory, 0, Command::U, 0), Seen::Done(0));
    assert_eq!(rt;
        ended(&rt, pair.release(&mut memory, hold)),
        Seen::Refused(8)
    );
    Ok(())
}

#[test]
fn laid_down_and_released_by_number(rt: HostRuntime) -> Result<(), Fail> {
    let mut words = [0; 16];
    let mut memory = WordTable::new(&mut words);
    let mut pair = Pair::new()?;
    let hold = pair.held(&rt, &mut memory, 1, 5);
    assert_eq!(rt; (hold.processor(), hold.address()), (1, 5));
    assert_eq!(rt; hold.lay_down(), (1, 5));
    assert_eq!(rt;
        pair.issue(&mut memory, 1, Command::LR, 5),
        Seen::Refused(6)
    );
    assert_eq!(rt; pair.bump(&mut memory, 0, 6), Seen::Wait(1));
    assert_eq!(rt; pair.issue(&mut memory, 1, Command::U, 5), Seen::Done(0));
    assert_eq!(rt; pair.bump(&mut memory, 0, 6), Seen::Done(0));
    Ok(())
}

// Adds the word at another address to the word at this one, which nobody else reads or writes in
// between.
fn add<M: Memory>(
    cluster: &mut Cluster,
    lines: &mut [Line],
    locks: &mut [LockEntry],
    memory: &mut M,
    processor: u8,
    address: u32,
    other: u32,
) -> Result<Answer, Refusal> {
    let (hold, taken) = match Hold::take(cluster, lines, locks, memory, processor, address) {
        Taken::Held(hold, taken) => (hold, taken),
        Taken::NotHeld(answer) => return answer,
    };
    let read = Request {
        processor,
        command: Command::R,
        address: other,
    };
    let released = match cluster.issue(lines, locks, memory, read) {
        Ok(Answer::Done(read)) => {
            let sum = taken.word.wrapping_add(read.word);
            hold.release_with(cluster, lines, locks, memory, sum)
        }
        _ => hold.release(cluster, lines, locks, memory),
    };
    released.into_answer()
}

#[test]
fn a_lock_taken_used_and_released(rt: HostRuntime) -> Result<(), Fail> {
    let mut words = [1, 0, 0, 0, 0, 20, 0, 0];
    let mut memory = WordTable::new(&mut words);
    let mut pair = Pair::new()?;
    let answer = add(
        &mut pair.cluster,
        &mut pair.lines,
        &mut pair.locks,
        &mut memory,
        0,
        0,
        5,
    );
    assert_eq!(rt; show(answer), Seen::Done(0));
    assert_eq!(rt; pair.issue(&mut memory, 1, Command::R, 0), Seen::Done(21));
    Ok(())
}
