// What a command costs in bus cycles.
ghost use Rattle.std.specs.Prelude.{◌≡◌, ◌≤◌};
ghost use Rattle.protocol.specs.Limits.{LowCosts};
ghost use Rattle.cluster.specs.Doing.{supply_cost, invalidates, cycles_for};

use protocol::answer::Supplier;
use protocol::command::BusCommand;
use protocol::measures::Costs;

pub(crate) fn supply_cost(costs: &Costs, from: Option<Supplier>) -> u32
    ensures { result ≡ supply_cost costs.now from }
{
    match from {
        Some(Supplier::Cache(_)) => costs.transfer,
        Some(Supplier::Memory) => costs.swap_in,
        None => 0,
    }
}

pub(crate) fn is_invalidation(bus: Option<BusCommand>) -> bool
    ensures { result ≡ invalidates bus }
{
    bus == Some(BusCommand::I)
}

// What took place costs: swap-out, transfer or swap-in, invalidation, lock signal. The bound is a
// clause of each call: as an invariant of `Completion` it would be asked of whoever makes one.
pub(crate) fn cycles(
    costs: &Costs,
    from: Option<Supplier>,
    bus: Option<BusCommand>,
    swapped: bool,
    ul: bool,
) -> u32
    requires { LowCosts costs.now }
    ensures value { result ≡ cycles_for costs.now from bus swapped ul }
    ensures bound { result ≤ 4000 }
{
    let swap_out = if swapped { costs.swap_out } else { 0 };
    let invalidation = if is_invalidation(bus) {
        costs.invalidation
    } else {
        0
    };
    let signal = if ul { costs.lock_signal } else { 0 };
    swap_out + supply_cost(costs, from) + invalidation + signal
}
