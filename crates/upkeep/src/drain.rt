// Writing all modified blocks back to memory.
ghost use Rattle.std.specs.Prelude.{◌≡◌, ◌≤◌, List, length, IfOk};
ghost use Rattle.protocol.specs.declared.lock.LockEntry.{LockEntry};
ghost use Rattle.cluster.specs.Board.{board_of};
ghost use Rattle.upkeep.specs.Counting.{census_of, modified_in};
ghost use Rattle.upkeep.specs.Draining.{written_back, memory_back, drain_from, drain_rule};

use cluster::cluster::Cluster;
use memory::blocks::write_block;
use memory::memory::Memory;
use protocol::line::Line;
use protocol::refusal::Refusal;

/// What a drain did: the blocks written back, and their bus cycles.
#[derive(Clone, Copy)]
pub struct Drained {
    pub blocks: u32,
    pub cycles: u32,
}

// Writes the line's block if it is modified. How many blocks that were.
fn write_back<M: Memory>(memory: &mut M, line: Line) -> Result<u32, Refusal>
    ensures answer { result ≡ written_back (M.model memory.old) line }
    ensures after { M.model memory.new ≡ memory_back (M.model memory.old) line }
    ensures kept { M.standing memory.new ≡ M.standing memory.old }
    ensures few { IfOk result (λ n. n ≤ 1) }
{
    if !line.state.is_modified() {
        return Ok(0);
    }
    write_block(memory, line.block, line.words)?;
    Ok(1)
}

// Goes through the lines in order. A refused write stops it there and keeps what it did.
fn drain_lines<M: Memory>(lines: &mut [Line], memory: &mut M) -> Result<u32, Refusal>
    requires { length lines.old ≤ 8192 }
    ensures answer { let drained = drain_from 0 lines.old (M.model memory.old) in
        result ≡ drained.answer }
    ensures lines { let drained = drain_from 0 lines.old (M.model memory.old) in
        lines.new ≡ drained.lines }
    ensures memory { let drained = drain_from 0 lines.old (M.model memory.old) in
        M.model memory.new ≡ drained.memory }
    ensures kept { M.standing memory.new ≡ M.standing memory.old }
    ensures few { IfOk result (λ n. n ≤ 8192) }
{
    let mut blocks = 0;
    for line in lines.iter_mut() {
        blocks += write_back(memory, *line)?;
        *line = Line::BLANK;
    }
    Ok(blocks)
}

/// Writes every modified block back to memory, in the order of the lines; every line becomes I. The
/// lock table is not lent: it may be any. Refuses a line table of wrong length with 2, then stops
/// with 11 at a block that memory refuses, and keeps what it did.
#[tactic(auto, unfolding(crate::specs::Draining::drain_rule))]
pub fn drain<M: Memory>(
    cluster: &Cluster,
    lines: &mut [Line],
    memory: &mut M,
) -> Result<Drained, Refusal>
    ensures answer { (locks : List LockEntry) →
        let before = board_of cluster.now lines.old locks (M.model memory.old) in
        result ≡ (drain_rule cluster.now.geometry.measures before).answer }
    ensures board { (locks : List LockEntry) →
        let before = board_of cluster.now lines.old locks (M.model memory.old) in
        board_of cluster.now lines.new locks (M.model memory.new)
        ≡ (drain_rule cluster.now.geometry.measures before).board }
    ensures kept { M.standing memory.new ≡ M.standing memory.old }
    ensures counted { let rows = census_of cluster.now.geometry.measures lines.old in
        IfOk result (λ d. d.blocks ≡ modified_in rows) }
{
    cluster.check_lines(lines)?;
    let blocks = drain_lines(lines, memory)?;
    Ok(Drained {
        blocks,
        cycles: blocks * cluster.geometry().costs().swap_out,
    })
}
