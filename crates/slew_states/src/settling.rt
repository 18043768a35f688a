//! The states of all nets, settled in one pass.
ghost use Rattle.std.specs.Prelude.{◌≡◌, ℕ, ◌+◌, ◌*◌, ◌<◌, ◌≤◌, ◌^◌, length, IfOk};
ghost use Rattle.cell_models.specs.declared.edge.Edge.{Edge};
ghost use Rattle.graph_order.specs.Fans.{IsFan};
ghost use Rattle.slew_states.specs.Arcs.{HaveNets, targets_of};
ghost use Rattle.slew_states.specs.Loops.{IsNetOrder};
ghost use Rattle.slew_states.specs.PinState.{most, IsSmall, by_driver, over_arcs, state_at};
ghost use Rattle.slew_states.specs.Settled.{states_in, AreSettled, CanAll, arc_edges};
ghost use Rattle.slew_states.specs.NetEdges.{edges_into};

use crate::arcs::{Driver, FlatArc};
use crate::joining::join_arc;
use crate::ordering::targets_of;
use crate::states::{EdgeStates, PinState};
use crate::timing::Timing;
use edge_io::{OutOfMemory, Steps};
use graph_order::{Fan, fan_of};
use std::alloc::Global;
use std::sync::ledger::Ledger;

/// The states of all nets, in an order of theirs. Each port has the slew at both edges, in attoseconds, at most 10^12.
///
/// Each arc is looked up once for each edge that it has, so it takes at most 64 steps for each of these pairs.
pub fn settle<T: Timing, L: Ledger>(
    alloc: Global,
    timing: &T,
    arcs: &[FlatArc],
    drivers: &[Driver],
    slew: u64,
    order: &[usize],
    steps: &mut Steps<L>,
) -> Result<Vec<EdgeStates>, OutOfMemory>
    requires nets { HaveNets (length drivers.now) arcs.now }
    requires few { length drivers.now < 2 ^ 63 }
    requires order { IsNetOrder (length drivers.now) arcs.now order.now }
    requires can { CanAll (T.can_look timing.now) (T.can_wire timing.now) arcs.now }
    requires slew { slew ≤ most }
    ensures settled { IfOk result
        (λ states. AreSettled (T.looks timing.now) (T.wires timing.now) arcs.now drivers.now slew states.items) }
    ensures small { IfOk result (λ states. (net : ℕ) (edge : Edge) → IsSmall (states_in states.items net edge)) }
    ensures steps { steps.new ≤ steps.old + 64 * arc_edges arcs.now }
{
    let targets = targets_of(alloc, drivers.len(), arcs)?;
    let into = fan_of(alloc, &targets, drivers.len() + 2)?;
    let absent = EdgeStates {
        rise: PinState::Absent,
        fall: PinState::Absent,
    };
    let mut states: Vec<EdgeStates> = vec![in alloc; absent; drivers.len()]?;
    for place in 0..order.len() {
        let net = order[place];
        if net < drivers.len() {
            let settled = net_states(timing, arcs, &into, drivers[net], net, slew, &states, steps);
            states[net] = settled;
        }
    }
    Ok(states)
}

// The states of a net by what drives it.
fn net_states<T: Timing, L: Ledger>(
    timing: &T,
    arcs: &[FlatArc],
    into: &Fan,
    driver: Driver,
    net: usize,
    slew: u64,
    states: &[EdgeStates],
    steps: &mut Steps<L>,
) -> EdgeStates
    requires nets { HaveNets (length states.now) arcs.now }
    requires into { IsFan (targets_of (length states.now) arcs.now) (length states.now + 2) into.now.last.items into.now.previous.items }
    requires can { CanAll (T.can_look timing.now) (T.can_wire timing.now) arcs.now }
    requires net { net < length states.now }
    requires slew { slew ≤ most }
    requires small { (net : ℕ) (edge : Edge) → IsSmall (states_in states.now net edge) }
    ensures value { (edge : Edge) → state_at result edge
        ≡ by_driver driver slew (over_arcs (T.looks timing.now) (T.wires timing.now) (states_in states.now) 0 arcs.now net edge) }
    ensures small { (edge : Edge) → IsSmall (state_at result edge) }
    ensures steps { steps.new ≤ steps.old + 64 * edges_into arcs.now net }
{
    match driver {
        Driver::Nothing => EdgeStates {
            rise: PinState::Absent,
            fall: PinState::Absent,
        },
        Driver::Port => EdgeStates {
            rise: PinState::Known(slew),
            fall: PinState::Known(slew),
        },
        Driver::Pin => pin_states(timing, arcs, into, net, states, steps),
    }
}

// The states of a net by the arcs that end on it.
fn pin_states<T: Timing, L: Ledger>(
    timing: &T,
    arcs: &[FlatArc],
    into: &Fan,
    net: usize,
    states: &[EdgeStates],
    steps: &mut Steps<L>,
) -> EdgeStates
    requires nets { HaveNets (length states.now) arcs.now }
    requires into { IsFan (targets_of (length states.now) arcs.now) (length states.now + 2) into.now.last.items into.now.previous.items }
    requires can { CanAll (T.can_look timing.now) (T.can_wire timing.now) arcs.now }
    requires net { net < length states.now }
    requires small { (net : ℕ) (edge : Edge) → IsSmall (states_in states.now net edge) }
    ensures value { (edge : Edge) → state_at result edge
        ≡ over_arcs (T.looks timing.now) (T.wires timing.now) (states_in states.now) 0 arcs.now net edge }
    ensures small { (edge : Edge) → IsSmall (state_at result edge) }
    ensures steps { steps.new ≤ steps.old + 64 * edges_into arcs.now net }
{
    let mut joined = EdgeStates {
        rise: PinState::Absent,
        fall: PinState::Absent,
    };
    let mut cursor = into.last[net];
    while let Some(arc) = cursor {
        joined = join_arc(timing, arc, &arcs[arc], states, joined, steps);
        cursor = into.previous[arc];
    }
    joined
}
