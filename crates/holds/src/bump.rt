// Raising a word by one under a lock.
ghost use Rattle.std.specs.Prelude.{◌≡◌};
ghost use Rattle.cluster.specs.Board.{board_of};
ghost use Rattle.law.specs.Accounts.{left_along};
ghost use Rattle.law.specs.Along.{LawAlong};
ghost use Rattle.holds.specs.Bumping.{bump_rule, bumping, Bumped, Raised};

use crate::hold::{Hold, Taken};
use cluster::cluster::Cluster;
use memory::memory::Memory;
use protocol::answer::Answer;
use protocol::line::Line;
use protocol::lock::LockEntry;
use protocol::refusal::Refusal;

/// Raises the word at an address by 1 modulo 2^32 under a lock: LR as a hold, then UW with the new
/// word. Answers UW's answer, or LR's if that is not done, refusals as theirs. Where UW gives the
/// hold back, it is laid down: the lock stays, and can be released by a command with the same two
/// numbers. The call is these two commands, so what holds of commands holds of it.
pub fn bump<M: Memory>(
    cluster: &mut Cluster,
    lines: &mut [Line],
    locks: &mut [LockEntry],
    memory: &mut M,
    processor: u8,
    address: u32,
) -> Result<Answer, Refusal>
    ensures answer { let before = board_of cluster.old lines.old locks.old (M.model memory.old) in
        result ≡ (bump_rule cluster.old.geometry.measures processor address before).answer }
    ensures board { let before = board_of cluster.old lines.old locks.old (M.model memory.old) in
        board_of cluster.new lines.new locks.new (M.model memory.new)
        ≡ (bump_rule cluster.old.geometry.measures processor address before).board }
    ensures geometry { cluster.new.geometry ≡ cluster.old.geometry }
    ensures kept { M.standing memory.new ≡ M.standing memory.old }
    ensures commands { let before = board_of cluster.old lines.old locks.old (M.model memory.old) in
        let calls = bumping cluster.old.geometry.measures processor address before in
        board_of cluster.new lines.new locks.new (M.model memory.new)
        ≡ left_along cluster.old.geometry.measures before calls }
    ensures law { let before = board_of cluster.old lines.old locks.old (M.model memory.old) in
        let calls = bumping cluster.old.geometry.measures processor address before in
        LawAlong cluster.old.geometry before calls }
    ensures raised { let before = board_of cluster.old lines.old locks.old (M.model memory.old) in
        Raised cluster.old.geometry processor address before result }
    ensures bumped { let before = board_of cluster.old lines.old locks.old (M.model memory.old) in
        Bumped cluster.old.geometry.measures processor address before result }
{
    let (hold, taken) = match Hold::take(cluster, lines, locks, memory, processor, address) {
        Taken::Held(hold, taken) => (hold, taken),
        Taken::NotHeld(answer) => return answer,
    };
    hold.release_with(cluster, lines, locks, memory, taken.word.wrapping_add(1))
        .into_answer()
}
