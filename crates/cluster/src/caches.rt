// Where the caches have a block.
ghost use Rattle.std.specs.Prelude.{◌≡◌, ◌<◌, length, IfSome};
ghost use Rattle.cluster.specs.Copies.{line_of, line_at, supplier_of};

use crate::cluster::Cluster;
use crate::view::View;
use protocol::directory::{Directory, Entry, Keys};
use protocol::line::Line;

// The line at a place, or a blank one where no line was found.
pub(crate) fn line_at(lines: &[Line], place: Option<usize>) -> Line
    requires { IfSome place (λ i. i < length lines.now) }
    ensures { result ≡ line_at lines.now place }
{
    place.map_or(Line::BLANK, |i| lines[i])
}

impl Cluster {
    // The first line of the processor's window that has the block.
    pub(crate) fn line_of(&self, lines: &[Line], processor: u8, block: u32) -> Option<usize>
        ensures value { result ≡ line_of self.now.geometry.measures lines.now processor block }
        ensures within { IfSome result (λ i. i < length lines.now) }
    {
        let window = self.geometry.window(processor, block);
        Directory::new(lines).find(window, Keys::only(block))
    }
}

impl<'a> View<'a> {
    // The lowest processor but the asking one that has the block, by a labelled break out of
    // processors and ways (docs/DECISIONS.md).
    pub(crate) fn supplier(&self, asking: u8, block: u32) -> Option<u8>
        ensures { let measures = self.now.cluster.now.geometry.measures in
            result ≡ supplier_of measures self.now.lines.now asking block }
    {
        let mut holder = None;
        'caches: for p in 0..self.cluster.geometry.processors() {
            if p == asking {
                continue;
            }
            let window = self.cluster.geometry.window(p, block);
            for i in window.from..window.from + window.count {
                if self.lines[i].lies_in(Keys::only(block)) {
                    holder = Some(p);
                    break 'caches;
                }
            }
        }
        holder
    }
}
