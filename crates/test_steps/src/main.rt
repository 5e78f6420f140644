// Plays short lists of commands and of other calls, each on a new cluster, and shows every field of
// each answer and the tables at the end. The input holds the cases one after another, as they stand
// in steps.txt.
#![tactic(auto)]

mod error;
mod input;
mod lines;
mod play;

use error::CaseError;
use input::{Case, Cases, numbers};
use lines::put_table;
use memory::dead::DeadList;
use memory::screen::Screen;
use memory::word_table::WordTable;
use parts::cases::put_heading;
use parts::reading::read_all;
use play::play;
use protocol::geometry::Geometry;
use run::board::Board;
use std::alloc::{AllocError, Global};
use std::io;
use std::io::Write;

const MOST_WORDS: usize = 1_024;

// Plays the case's steps on a new cluster over a new memory.
fn put_case(heap: Global, out: &mut Vec<u8>, case: &Case) -> Result<(), CaseError> {
    let mut dead = DeadList::new();
    dead.fill(&numbers(heap, case.dead)?)?;
    let mut words = [0; MOST_WORDS];
    let table = words
        .get_mut(..case.setting.words)
        .ok_or(CaseError::Malformed)?;
    let mut memory = Screen::new(WordTable::new(table), dead);
    let measures = case.setting.measures;
    let geometry = Geometry::new(measures)?;
    let mut board = Board::new(heap, geometry)?;
    play(out, &mut board, &mut memory, case.steps)?;
    let lines_each = measures.columns.saturating_mul(measures.ways);
    put_table(out, b"states", &board.lines, lines_each)?;
    put_table(out, b"locks", &board.locks, measures.lock_entries)?;
    Ok(())
}

// Stops at a case that is not well made.
fn list_all(heap: Global, input: &[u8]) -> Result<Vec<u8>, AllocError> {
    let mut out = Vec::new(heap);
    for case in Cases(input) {
        put_heading(&mut out, case.name)?;
        match put_case(heap, &mut out, &case) {
            Ok(()) => {}
            Err(CaseError::Malformed) => break,
            Err(CaseError::Memory(error)) => return Err(error),
        }
    }
    Ok(out)
}

fn main(rt: HostRuntime) -> io::Result<()> {
    let heap = rt.alloc();
    let input = read_all(heap, rt.stdin())?;
    rt.stdout().write_all(&list_all(heap, &input)?)
}
