// The block's words before the command, and the swap-out of the victim.
ghost use Rattle.std.specs.Prelude.{◌≡◌, ◌<◌, length, IfSome, OnErr, Ok, Err};
ghost use Rattle.cluster.specs.Doing.{supplied_by, supplied, victim_of, swapped_out, memory_after};

use crate::caches::line_at;
use crate::case::{Case, asks_for_block};
use crate::view::View;
use crate::ways::Taken;
use memory::blocks::{read_block, write_block};
use memory::memory::Memory;
use protocol::answer::Supplier;
use protocol::line::Line;
use protocol::refusal::Refusal;

/// The four words that a block had before the command, and who supplied them, if it was asked for.
#[derive(Clone, Copy)]
pub struct Supply {
    pub words: [u32; 4],
    pub from: Option<Supplier>,
}

impl<'a> View<'a> {
    // The block as another cache or memory has it.
    fn supply_from<M: Memory>(
        &self,
        memory: &M,
        block: u32,
        copy: Option<u8>,
    ) -> Result<Supply, Refusal>
        ensures { let measures = self.now.cluster.now.geometry.measures in
            result ≡ supplied_by measures self.now.lines.now (M.model memory.now) block copy }
    {
        match copy {
            Some(q) => {
                let place = self.cluster.line_of(self.lines, q, block);
                let words = line_at(self.lines, place).words;
                Ok(Supply {
                    words,
                    from: Some(Supplier::Cache(q)),
                })
            }
            None => Ok(Supply {
                words: read_block(memory, block)?,
                from: Some(Supplier::Memory),
            }),
        }
    }

    pub(crate) fn fetch<M: Memory>(&self, memory: &M, case: &Case) -> Result<Supply, Refusal>
        requires { IfSome case.now.place (λ i. i < length self.now.lines.now) }
        ensures { let measures = self.now.cluster.now.geometry.measures in
            result ≡ supplied measures self.now.lines.now (M.model memory.now) case.now }
    {
        if asks_for_block(case.effect.bus) {
            return self.supply_from(memory, case.block, case.copy);
        }
        let words = line_at(self.lines, case.place).words;
        Ok(Supply { words, from: None })
    }

    // The line in the way taken, if memory has to be given its block.
    pub(crate) fn victim(&self, taken: Option<Taken>) -> Option<Line>
        requires { IfSome taken (λ t. t.place < length self.now.lines.now) }
        ensures { result ≡ victim_of self.now.lines.now taken }
    {
        let old = self.lines[taken?.place];
        old.state.is_modified().then_some(old)
    }
}

// Writes the victim's block to memory.
pub(crate) fn swap_out<M: Memory>(
    memory: &mut M,
    victim: Option<Line>,
) -> Result<Option<u32>, Refusal>
    ensures answer { result ≡ swapped_out (M.model memory.old) victim }
    ensures after { M.model memory.new ≡ memory_after (M.model memory.old) victim }
    ensures kept { M.standing memory.new ≡ M.standing memory.old }
    ensures denied { OnErr result (M.model memory.new ≡ M.model memory.old) }
{
    let Some(line) = victim else {
        return Ok(None);
    };
    write_block(memory, line.block, line.words)?;
    Ok(Some(line.block))
}
