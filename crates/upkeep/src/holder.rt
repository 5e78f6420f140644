// Who holds a lock.
ghost use Rattle.std.specs.Prelude.{◌≡◌, List};
ghost use Rattle.protocol.specs.declared.line.Line.{Line};
ghost use Rattle.memory.specs.Meaning.{Mem};
ghost use Rattle.cluster.specs.Board.{board_of};
ghost use Rattle.upkeep.specs.Holding.{holder_of, question_rule};

use cluster::cluster::Cluster;
use protocol::lock::LockEntry;
use protocol::refusal::Refusal;

fn lowest_holder(cluster: &Cluster, locks: &[LockEntry], address: u32) -> Option<u8>
    ensures { result ≡ holder_of cluster.now.geometry.measures locks.now address }
{
    (0..cluster.geometry().processors()).find(|p| cluster.held_entry(locks, *p, address).is_some())
}

/// The lowest processor that holds a lock at the word address, or none; any address may be asked.
/// Line table and memory are not lent: they may be any. Refuses a lock table of wrong length with
/// 2.
pub fn lock_question(
    cluster: &Cluster,
    locks: &[LockEntry],
    address: u32,
) -> Result<Option<u8>, Refusal>
    ensures { (lines : List Line) (mem : Mem) →
        let board = board_of cluster.now lines locks.now mem in
        result ≡ question_rule cluster.now.geometry.measures board address }
{
    cluster.check_locks(locks)?;
    Ok(lowest_holder(cluster, locks, address))
}
