// A board's listing of a trace held against the model's.
ghost use Rattle.std.specs.Prelude.{◌≡◌, ◌↔◌, length, IfOk, OnOk};
ghost use Rattle.trace.specs.Traces.{records_of};
ghost use Rattle.run.specs.Listing.{listing_on};
ghost use Rattle.judging.specs.Judged.{steps_on, steps_listed, ShowsStep};
ghost use Rattle.judging.specs.Verdicts.{verdict_of, IsAgree, OnDiffer, IsFirst};

use crate::comparing::{Verdict, compare};
use memory::memory::Memory;
use protocol::geometry::Geometry;
use run::listing::list_trace;
use std::alloc::{AllocError, Global};
use trace::trace::Trace;

/// The bytes of the line of a step.
const STEP_LINE: usize = 45;

/// What a listing that was held against the model's came to.
#[derive(Drop)]
pub struct Judgement {
    pub verdict: Verdict,
    /// The number of steps of the model's run.
    pub steps: usize,
    /// The model's listing.
    pub ours: Vec<u8>,
}

// By its length: the lines of steps are equally long, and the lines TOTAL and STUCK together are
// shorter than one of them.
fn steps_listed(listing: &[u8]) -> usize
    ensures { result ≡ steps_listed listing.now }
{
    listing.len() / STEP_LINE
}

/// Makes the listing of a trace's run on a new cluster of a geometry, over a memory, and compares a
/// listing from elsewhere with it. Only want of memory is an error.
pub fn judge<M: Memory>(
    heap: Global,
    geometry: Geometry,
    memory: &mut M,
    trace: Trace,
    theirs: &[u8],
) -> Result<Judgement, AllocError>
    ensures ours { let records = records_of trace.entry.records.now in
        let ours = listing_on geometry.measures (M.model memory.old) records in
        IfOk result (λ j. j.ours.items ≡ ours) }
    ensures verdict { let records = records_of trace.entry.records.now in
        let ours = listing_on geometry.measures (M.model memory.old) records in
        IfOk result (λ j. j.verdict ≡ verdict_of ours theirs.now) }
    ensures steps { let records = records_of trace.entry.records.now in
        let steps = steps_on geometry.measures (M.model memory.old) records in
        IfOk result (λ j. j.steps ≡ length steps) }
    ensures agree { let records = records_of trace.entry.records.now in
        let ours = listing_on geometry.measures (M.model memory.old) records in
        IfOk result (λ j. IsAgree j.verdict ↔ (theirs.now ≡ ours)) }
    ensures first { let records = records_of trace.entry.records.now in
        let ours = listing_on geometry.measures (M.model memory.old) records in
        IfOk result (λ j. OnDiffer j.verdict (λ d. IsFirst ours theirs.now d)) }
    ensures numbered { let records = records_of trace.entry.records.now in
        let ours = listing_on geometry.measures (M.model memory.old) records in
        let steps = steps_on geometry.measures (M.model memory.old) records in
        IfOk result (λ j. OnDiffer j.verdict (λ d. ShowsStep steps ours d)) }
    ensures kept { OnOk result (M.standing memory.new ≡ M.standing memory.old) }
{
    let ours = list_trace(heap, geometry, memory, trace)?;
    let listing: &[u8] = &ours;
    let verdict = compare(listing, theirs);
    let steps = steps_listed(listing);
    Ok(Judgement {
        verdict,
        steps,
        ours,
    })
}
