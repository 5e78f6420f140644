// What the line table holds: lines by state, and blocks by the number of their copies.
ghost use Rattle.std.specs.Prelude.{◌≡◌, replicate, IfOk, Some};
ghost use Rattle.upkeep.specs.Counting.{count_in, row_of};
ghost use Rattle.stats.specs.Copies.{copy_in, all_counted, blocks_by_copies};

use crate::tally::count_at;
use protocol::line::Line;
use protocol::state::State;
use std::alloc::{AllocError, Global};

#[tactic(auto, unfolding(upkeep::specs::Counting::count_in))]
fn count(lines: &[Line], state: State) -> u64
    ensures { result ≡ count_in state lines.now }
{
    lines.iter().filter(|line| line.state == state).count() as u64
}

/// The lines of a table in EM, EC, SM, S and I.
pub fn lines_by_state(lines: &[Line]) -> [u64; 5]
    ensures { result ≡ row_of lines.now }
{
    [State::EM, State::EC, State::SM, State::S, State::I].map(
        |state|
            ensures { result ≡ count_in state lines.entry.now }
        { count(lines, state) },
    )
}

// The block that the line is a copy of, if it is valid.
fn copy_in(line: &Line) -> Option<usize>
    ensures { result ≡ copy_in line.now }
{
    if !line.state.is_valid() {
        return None;
    }
    Some(line.block as usize)
}

// Counts each valid line at its block.
fn count_copies(copies: &mut [u64], lines: &[Line])
    ensures { copies.new ≡ all_counted copy_in copies.old lines.now }
{
    for line in lines {
        count_at(copies, copy_in(line));
    }
}

// The copies of each block.
fn copies_of_each(heap: Global, lines: &[Line], blocks: u32) -> Result<Vec<u64>, AllocError>
    ensures { IfOk result (λ v. v.items ≡ all_counted copy_in (replicate blocks 0) lines.now) }
{
    let mut copies = vec![in heap; 0; blocks as usize]?;
    count_copies(&mut copies, lines);
    Ok(copies)
}

// How often each number below 9 stands among numbers.
fn count_numbers(numbers: &[u64]) -> [u64; 9]
    ensures { result ≡ all_counted Some (replicate 9 0) numbers.now }
{
    let mut counts = [0; 9];
    for number in numbers {
        count_at(&mut counts, Some(*number as usize));
    }
    counts
}

/// How many of the blocks 0 to `blocks` - 1 have 0, 1, .. 8 valid copies in a line table. Only want
/// of memory is an error.
pub fn blocks_by_copies(heap: Global, lines: &[Line], blocks: u32) -> Result<[u64; 9], AllocError>
    ensures { IfOk result (λ counts. counts ≡ blocks_by_copies lines.now blocks) }
{
    let copies = copies_of_each(heap, lines, blocks)?;
    Ok(count_numbers(&copies))
}
