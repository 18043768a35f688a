//! The states of all nets at all corners.
ghost use Rattle.std.specs.Prelude.{◌≡◌, ◌+◌, ◌*◌, ◌^◌, ◌<◌, ◌≤◌, length, IfOk};
ghost use Rattle.slew_states.specs.Loops.{IsNetOrder};
ghost use Rattle.slew_order.specs.NetStates.{AreNetStates, AreStatesAt, drivers_in, edges_in};
ghost use Rattle.slew_order.specs.Timings.{flat_in};

use crate::at_corner::AtCorner;
use crate::design::Design;
use corner_set::CornerSet;
use edge_io::lists::push;
use edge_io::{OutOfMemory, Steps};
use slew_states::{Driver, EdgeStates, settle};
use std::alloc::Global;
use std::marker::Model;
use std::sync::ledger::Ledger;

/// The states of all nets at a corner. Contracts see the list of them.
#[derive(Drop)]
pub(crate) struct NetStates {
    states: Vec<EdgeStates>,
}

impl Model for NetStates {
    ghost use Rattle.std.specs.Prelude.{List};
    ghost use Rattle.slew_states.specs.declared.states.EdgeStates.{EdgeStates};

    ghost Value = { List EdgeStates };

    ghost view = { λ states. states.states.items };
}

impl NetStates {
    /// The states, by the numbers of the nets.
    pub(crate) fn as_slice(&self) -> &[EdgeStates]
        ensures { result.now ≡ self.now }
    {
        self.states.as_slice()
    }
}

// The states at a corner. They take at most 64 steps for each pair of an arc and an edge that it has.
fn settle_at<C: CornerSet, L: Ledger>(
    alloc: Global,
    design: &Design<'_, C>,
    corner: C::Index,
    drivers: &[Driver],
    order: &[usize],
    steps: &mut Steps<L>,
) -> Result<NetStates, OutOfMemory>
    requires drivers { drivers.now ≡ drivers_in design.now }
    requires few { length drivers.now < 2 ^ 63 }
    requires order { IsNetOrder (length drivers.now) (flat_in design.now) order.now }
    ensures states { IfOk result (AreStatesAt design.now (C.number_of corner)) }
    ensures steps { steps.new ≤ steps.old + 64 * edges_in design.now }
{
    let timing = AtCorner { design, corner };
    let states = settle(
        alloc,
        &timing,
        design.flat(),
        drivers,
        design.slew(),
        order,
        steps,
    )?;
    Ok(NetStates { states })
}

/// The states at all corners, in an order of the nets. They take at most 64 steps for each corner and each pair of an arc and an
/// edge that it has.
pub(crate) fn settle_corners<C: CornerSet, L: Ledger>(
    alloc: Global,
    design: &Design<'_, C>,
    drivers: &[Driver],
    order: &[usize],
    steps: &mut Steps<L>,
) -> Result<Vec<NetStates>, OutOfMemory>
    requires drivers { drivers.now ≡ drivers_in design.now }
    requires few { length drivers.now < 2 ^ 63 }
    requires order { IsNetOrder (length drivers.now) (flat_in design.now) order.now }
    ensures states { IfOk result (λ corners. AreNetStates design.now corners.items) }
    ensures steps { steps.new ≤ steps.old + 64 * (design.now.count * edges_in design.now) }
{
    let mut corners = Vec::new(alloc);
    for number in 0..design.corner_count() {
        let corner = design.corner(number);
        let states = settle_at(alloc, design, corner, drivers, order, steps)?;
        push(&mut corners, states)?;
    }
    Ok(corners)
}
