// Making a cluster and its lent tables new.
ghost use Rattle.std.specs.Prelude.{◌≡◌, is_ok, if◌then◌else◌};
ghost use Rattle.memory.specs.Meaning.{Mem};
ghost use Rattle.cluster.specs.Board.{board_of, making_rule};
ghost use Rattle.cluster.specs.Making.{all_resting};
ghost use Rattle.cluster.specs.Waiting.{awaited};

use crate::cluster::{Cluster, Processor};
use protocol::geometry::Geometry;
use protocol::line::Line;
use protocol::lock::LockEntry;
use protocol::refusal::Refusal;

impl Cluster {
    /// A cluster of a geometry whose processors have done nothing yet: every turn 0, nobody waits.
    pub fn at_rest(geometry: Geometry) -> Cluster
        ensures geometry { result.geometry ≡ geometry }
        ensures processors { result.processors ≡ all_resting }
    {
        Cluster {
            geometry,
            processors: [Processor::AT_REST; 8],
        }
    }

    /// The geometry that the cluster was made with.
    pub fn geometry(&self) -> Geometry
        ensures { result ≡ self.now.geometry }
    {
        self.geometry
    }

    /// The number of the block that a processor waits for, if it waits; a processor that the
    /// geometry does not have never waits.
    pub fn waits_for(&self, processor: u8) -> Option<u32>
        ensures { result ≡ awaited self.now processor }
    {
        if processor >= self.geometry.processors() {
            return None;
        }
        self.processors[processor as usize].waits_for
    }

    /// Makes the cluster and its tables new, in the caller's place, for a geometry: every line I,
    /// every lock entry E, every turn 0, nobody waits. The memory is not lent: it may be any.
    /// Refuses a table of wrong length for that geometry with 2, lines first; then nothing changes.
    pub fn make_new(
        &mut self,
        geometry: Geometry,
        lines: &mut [Line],
        locks: &mut [LockEntry],
    ) -> Result<(), Refusal>
        ensures answer { (mem : Mem) →
            let before = board_of self.old lines.old locks.old mem in
            result ≡ (making_rule geometry.measures before).answer }
        ensures board { (mem : Mem) →
            let before = board_of self.old lines.old locks.old mem in
            let after = board_of self.new lines.new locks.new mem in
            after ≡ (making_rule geometry.measures before).board }
        ensures geometry { let made = is_ok result in
            self.new.geometry ≡ (if made then geometry else self.old.geometry) }
    {
        let new = Cluster::at_rest(geometry);
        new.check_tables(lines, locks)?;
        *self = new;
        lines.fill(Line::BLANK);
        locks.fill(LockEntry::BLANK);
        Ok(())
    }
}
