// The way that a command takes in its window.
ghost use Rattle.std.specs.Prelude.{◌≡◌, ◌<◌, length, IfSome};
ghost use Rattle.cluster.specs.Finishing.{way_taken};
ghost use Rattle.cluster.specs.Ways.{taken_way};

use crate::case::Case;
use crate::view::View;
use protocol::directory::Directory;

/// The way that a processor takes in its window: the place of its line in the line table, and
/// whether the turn chose it.
#[derive(Clone, Copy)]
pub struct Taken {
    pub place: usize,
    pub by_turn: bool,
}

impl<'a> View<'a> {
    // The lowest way of the window that is I, else the one numbered by the turn.
    fn take_way(&self, processor: u8, block: u32, turn: usize) -> Taken
        requires { processor < self.now.cluster.now.geometry.measures.processors }
        ensures value { let measures = self.now.cluster.now.geometry.measures in
            result ≡ taken_way measures self.now.lines.now processor block turn }
        ensures within { result.place < length self.now.lines.now }
    {
        let window = self.cluster.geometry.window(processor, block);
        match Directory::new(self.lines).free(window) {
            Some(free) => Taken {
                place: free,
                by_turn: false,
            },
            None => Taken {
                place: window.from + turn % self.cluster.geometry.ways(),
                by_turn: true,
            },
        }
    }

    // The way that the command takes, if it takes one.
    pub(crate) fn taken(&self, case: &Case) -> Option<Taken>
        requires { case.now.processor < self.now.cluster.now.geometry.measures.processors }
        ensures value { let measures = self.now.cluster.now.geometry.measures in
            let processors = self.now.cluster.now.processors in
            result ≡ way_taken measures processors self.now.lines.now case.now }
        ensures within { IfSome result (λ t. t.place < length self.now.lines.now) }
    {
        if !case.takes_way() {
            return None;
        }
        let turn = self.cluster.processors[case.processor as usize].turn;
        Some(self.take_way(case.processor, case.block, turn))
    }
}
