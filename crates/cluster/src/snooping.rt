// What a bus command does to the other caches.
ghost use Rattle.std.specs.Prelude.{◌≡◌};
ghost use Rattle.cluster.specs.Snooping.{cache_snooped, other_snooped, others_snooped};

use crate::cluster::Cluster;
use protocol::command::BusCommand;
use protocol::line::Line;
use protocol::table::snoop;

impl Cluster {
    // In a cache the first line found for the block changes as the bus command says.
    fn snoop_cache(&self, lines: &mut [Line], processor: u8, block: u32, bus: BusCommand)
        ensures { let measures = self.now.geometry.measures in
            lines.new ≡ cache_snooped measures bus block processor lines.old }
    {
        if let Some(i) = self.line_of(lines, processor, block) {
            let line = lines[i];
            lines[i] = line.with_state(snoop(bus, line.state));
        }
    }

    // A cache changes unless it is the asking one's.
    fn snoop_other(
        &self,
        lines: &mut [Line],
        asking: u8,
        processor: u8,
        block: u32,
        bus: BusCommand,
    )
        ensures { let measures = self.now.geometry.measures in
            lines.new ≡ other_snooped measures bus asking block processor lines.old }
    {
        if processor != asking {
            self.snoop_cache(lines, processor, block, bus);
        }
    }

    // All caches but the asking one's see the bus command.
    pub(crate) fn snoop_others(&self, lines: &mut [Line], asking: u8, block: u32, bus: BusCommand)
        ensures { lines.new ≡ others_snooped self.now.geometry.measures bus asking block lines.old }
    {
        for p in 0..self.geometry.processors() {
            self.snoop_other(lines, asking, p, block, bus);
        }
    }
}
