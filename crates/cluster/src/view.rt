// What a command reads before it changes anything: the cluster and its tables.
ghost use Rattle.std.specs.Prelude.{◌≡◌, length};
ghost use Rattle.protocol.specs.Places.{line_count};

use crate::cluster::Cluster;
use protocol::line::Line;
use protocol::lock::LockEntry;

#[derive(Clone, Copy)]
pub(crate) struct View<'a> {
    pub(crate) cluster: &'a Cluster,
    pub(crate) lines: &'a [Line],
    pub(crate) locks: &'a [LockEntry],
    ghost rows: { length lines.now ≡ line_count cluster.now.geometry.measures },
}
