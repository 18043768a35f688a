//! The slews of a design, or why it has none.
ghost use Rattle.std.specs.Prelude.{◌≡◌, ◌+◌, ◌*◌, ◌<◌, ◌≤◌, pos, ◌≤ℤ◌, unsigned_abs, IfOk, IfErr, OnOk};
ghost use Rattle.slew_states.specs.PinState.{most};
ghost use Rattle.slew_order.specs.Cycles.{HasNoCycle};
ghost use Rattle.slew_order.specs.Loaded.{source_in};
ghost use Rattle.slew_order.specs.NetStates.{AreNetStates, edges_in};
ghost use Rattle.slew_order.specs.SinkPlaces.{ArePlaces};
ghost use Rattle.slew_order.specs.Sinks.{ArePinStarts};
ghost use Rattle.slew_order.specs.SlewEnds.{IsSlewEnd};
ghost use Rattle.slew_order.specs.Slews.{AreSlews};
ghost use Rattle.slew_order.specs.Timings.{source_of};

use crate::design::Design;
use crate::ends::SlewEnd;
use crate::flattening::drivers_of;
use crate::limits::ask_limits;
use crate::loaded::LoadedNetlist;
use crate::net_order::net_order;
use crate::net_states::{NetStates, settle_corners};
use crate::refusals::ask_lookups;
use crate::sinks::{PinSinks, pin_sinks};
use crate::slews::Slews;
use corner_set::{Beyond, CornerSet, WireSlew};
use delay_units::Atto;
use edge_io::Steps;
use std::alloc::Global;
use std::sync::ledger::Ledger;

// The states of all nets at all corners, or a cycle.
fn states_of<C: CornerSet, L: Ledger>(
    alloc: Global,
    design: &Design<'_, C>,
    steps: &mut Steps<L>,
) -> Result<Vec<NetStates>, SlewEnd>
    ensures none { OnOk result (HasNoCycle design.now.netlist design.now.cells) }
    ensures states { IfOk result (λ corners. AreNetStates design.now corners.items) }
    ensures end { IfErr result (IsSlewEnd design.now) }
    ensures steps { steps.new ≤ steps.old + 64 * (design.now.count * edges_in design.now) }
{
    let drivers = drivers_of(alloc, design.netlist())?;
    let order = net_order(alloc, design)?;
    let corners = settle_corners(alloc, design, &drivers, &order, steps)?;
    Ok(corners)
}

// The slews of a design, whose pins are these sinks.
fn slews_of<C: CornerSet, L: Ledger>(
    alloc: Global,
    design: &Design<'_, C>,
    pins: PinSinks,
    steps: &mut Steps<L>,
) -> Result<Slews<C>, SlewEnd>
    requires starts { ArePinStarts design.now.netlist pins.starts.items }
    requires places { ArePlaces design.now.netlist pins.starts.items pins.places.items }
    ensures slews { IfOk result (AreSlews design.now) }
    ensures end { IfErr result (IsSlewEnd design.now) }
    ensures steps { steps.new ≤ steps.old + 128 * (design.now.count * edges_in design.now) }
{
    let corners = states_of(alloc, design, steps)?;
    ask_lookups(design, &corners, steps)?;
    ask_limits(design, &corners)?;
    Ok(Slews::of(corners, pins, design.beyond(), design.mode(), design.slew()))
}

/// The slews of all pins of a netlist at both edges and all corners, or why there are none: a cycle, then a refused look-up, then a
/// slew that is past 10^12 attoseconds behind a wire. The slew of the input ports is from 0 to 10^12 attoseconds.
///
/// Each edge of each arc is looked up at most four times at each corner: it takes at most 128 steps for each pair of an arc of an
/// instance and an edge that it has, and each corner, whatever it answers.
pub fn propagate<C: CornerSet, L: Ledger>(
    alloc: Global,
    loaded: &LoadedNetlist<'_, C>,
    input_slew: Atto,
    beyond: Beyond,
    mode: WireSlew,
    steps: &mut Steps<L>,
) -> Result<Slews<C>, SlewEnd>
    requires not_negative { pos 0 ≤ℤ input_slew.0 }
    requires small { input_slew.0 ≤ℤ pos most }
    ensures slews { IfOk result (AreSlews (source_in loaded.now C.COUNT beyond mode (unsigned_abs input_slew.0))) }
    ensures end { IfErr result (IsSlewEnd (source_in loaded.now C.COUNT beyond mode (unsigned_abs input_slew.0))) }
    ensures steps { steps.new ≤ steps.old
        + 128 * (C.COUNT * edges_in (source_in loaded.now C.COUNT beyond mode (unsigned_abs input_slew.0))) }
{
    let pins = pin_sinks(alloc, &loaded.linked.netlist)?;
    let slew = input_slew.0.unsigned_abs();
    let design = Design::new(alloc, loaded, &pins, beyond, mode, slew)?;
    slews_of(alloc, &design, pins, steps)
}
