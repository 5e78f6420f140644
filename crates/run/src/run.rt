// What a run keeps between two steps.
ghost use Rattle.std.specs.Prelude.{◌≡◌, ◌*◌, ◌≤◌, length};
ghost use Rattle.run.specs.Settled.{Settled};

pub use crate::running::run_trace;
pub use text::step::{Step, Summary};
use trace::trace::Trace;

/// What a run keeps between two steps: the trace; for each processor the index of its first
/// unfinished record, or the number of records where it has none; the steps so far and their bus
/// cycles.
#[derive(Clone, Copy)]
pub struct Run<'a> {
    pub(crate) trace: Trace<'a>,
    pub(crate) next: [usize; 8],
    pub(crate) steps: u32,
    pub(crate) cycles: u64,
    ghost eight: { length next ≡ 8 },
    ghost settled: { Settled trace.records.now next },
    ghost cheap: { cycles ≤ 4000 * steps },
}
