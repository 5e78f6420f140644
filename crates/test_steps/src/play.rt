// The steps of a case, one after another.
use crate::error::CaseError;
use crate::input::{Step, step_of};
use crate::lines::{put_holder, put_made_new, put_step};
use memory::memory::Memory;
use run::board::Board;
use trace::record::RECORD_SIZE;
use upkeep::holder::lock_question;

// How many entries of each table the calls are lent.
#[derive(Clone, Copy)]
struct Lent {
    lines: usize,
    locks: usize,
}

// Takes one step, and shows what it is answered. Answers what the next one is lent.
fn take<M: Memory>(
    out: &mut Vec<u8>,
    board: &mut Board,
    memory: &mut M,
    lent: Lent,
    step: Step,
) -> Result<Lent, CaseError> {
    let lines = board
        .lines
        .as_mut_slice()
        .get_mut(..lent.lines)
        .ok_or(CaseError::Malformed)?;
    let locks = board
        .locks
        .as_mut_slice()
        .get_mut(..lent.locks)
        .ok_or(CaseError::Malformed)?;
    let cluster = &mut board.cluster;
    match step {
        Step::Command(request) => {
            put_step(out, request, &cluster.issue(lines, locks, memory, request))?
        }
        Step::MakeNew => {
            let geometry = cluster.geometry();
            put_made_new(out, cluster.make_new(geometry, lines, locks))?
        }
        Step::Holder(address) => put_holder(out, address, lock_question(cluster, locks, address))?,
        Step::Lend(lines, locks) => return Ok(Lent { lines, locks }),
    }
    Ok(lent)
}

/// Takes all steps of a case.
pub fn play<M: Memory>(
    out: &mut Vec<u8>,
    board: &mut Board,
    memory: &mut M,
    steps: &[u8],
) -> Result<(), CaseError> {
    let mut lent = Lent {
        lines: board.lines.len(),
        locks: board.locks.len(),
    };
    for bytes in steps.chunks_exact(RECORD_SIZE) {
        let step = step_of(bytes).ok_or(CaseError::Malformed)?;
        lent = take(out, board, memory, lent, step)?;
    }
    Ok(())
}
