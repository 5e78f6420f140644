// The geometry of a cluster.
ghost use Rattle.std.specs.Prelude.{◌≡◌, ◌≤◌, count_ones};

use crate::measures::Measures;

mod places;

/// Measures within their limits, which are the struct's invariant: no call checks them again.
#[derive(Clone, Copy)]
pub struct Geometry {
    measures: Measures,
    ghost some_processors: { 1 ≤ measures.processors },
    ghost few_processors: { measures.processors ≤ 8 },
    ghost power_of_two: { count_ones measures.columns ≡ 1 },
    ghost few_columns: { measures.columns ≤ 256 },
    ghost some_ways: { 1 ≤ measures.ways },
    ghost few_ways: { measures.ways ≤ 4 },
    ghost some_entries: { 1 ≤ measures.lock_entries },
    ghost few_entries: { measures.lock_entries ≤ 4 },
    ghost low_costs: { (measures.costs.swap_in ≤ 1000) × (measures.costs.transfer ≤ 1000)
        × (measures.costs.invalidation ≤ 1000) × (measures.costs.swap_out ≤ 1000)
        × (measures.costs.lock_signal ≤ 1000) },
}
