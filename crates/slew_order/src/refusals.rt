//! The first look-up that is refused.
ghost use Rattle.std.specs.Prelude.{◌≡◌, ◌+◌, ◌*◌, ◌<◌, ◌≤◌, ◌↔◌, if◌then◌else◌, length, true, IsTrue, IfErr, IfSome, IfNone, OnOk};
ghost use Rattle.slew_states.specs.declared.arcs.Driver.TheVariants.{Pin};
ghost use Rattle.slew_states.specs.Arcs.{arc_at, driver_at, has_edge};
ghost use Rattle.slew_states.specs.PinState.{IsSmall, worst};
ghost use Rattle.slew_order.specs.Cycles.{HasNoCycle};
ghost use Rattle.slew_order.specs.FlatArcs.{drivers_of};
ghost use Rattle.slew_order.specs.NetStates.{AreNetStates, AreStatesAt, edges_in, net_state};
ghost use Rattle.slew_order.specs.SlewEnds.{IsRefusal, IsFirstRefusal, NoRefusalAt, NoRefusalTo, NoRefusals, IsSlewEnd};
ghost use Rattle.slew_order.specs.Timings.{arcs_in, flat_in, wire_at};

use crate::at_corner::AtCorner;
use crate::design::Design;
use crate::ends::SlewEnd;
use crate::lookups::PartEnd;
use crate::net_states::NetStates;
use cell_models::Edge;
use corner_set::CornerSet;
use edge_io::Steps;
use netlist_link::{End, Netlist};
use nldm_lookup::LookupEnd;
use slew_states::{EdgeStates, PinState, worst_input};
use std::sync::ledger::Ledger;

/// A look-up that is refused, by the numbers of its arc and its corner.
#[derive(Clone, Copy)]
pub(crate) struct Refusal {
    pub(crate) arc: usize,
    pub(crate) edge: Edge,
    pub(crate) corner: usize,
    pub(crate) end: PartEnd,
}

/// Known with the worst input slew of an arc at an edge of its output and a corner.
pub(crate) fn worst_at<C: CornerSet>(
    design: &Design<'_, C>,
    arc: usize,
    edge: Edge,
    number: usize,
    states: &[EdgeStates],
) -> PinState
    requires arc { arc < length (arcs_in design.now) }
    requires corner { number < design.now.count }
    requires states { AreStatesAt design.now number states.now }
    ensures value { result ≡ worst (wire_at design.now number) (net_state design.now number) arc (arc_at (flat_in design.now) arc) edge }
    ensures small { IsSmall result }
{
    let flat = design.flat();
    let timing = AtCorner {
        design,
        corner: design.corner(number),
    };
    worst_input(&timing, arc, &flat[arc], edge, states)
}

// Whether an output pin drives a net.
#[tactic(auto, using(crate::proofs::StuckNets::pin_drives))]
fn is_driven(netlist: &Netlist, net: usize) -> bool
    requires { net < length netlist.now.nets }
    ensures { IsTrue result → driver_at (drivers_of netlist.now) net ≡ Pin }
{
    matches!(netlist.driver(net), Some(End::Pin { .. }))
}

fn is_stuck(state: PinState) -> bool
    ensures { IsTrue result ↔ (state ≡ PinState.Stuck) }
{
    matches!(state, PinState::Stuck)
}

// Whether the state of the net of an arc tells that no look-up of the arc is refused: it would be stuck.
#[tactic(auto, using(crate::proofs::StuckNets::not_refused))]
fn is_taken<C: CornerSet>(
    design: &Design<'_, C>,
    arc: usize,
    edge: Edge,
    number: usize,
    states: &[EdgeStates],
) -> bool
    requires none { HasNoCycle design.now.netlist design.now.cells }
    requires arc { arc < length (arcs_in design.now) }
    requires states { AreStatesAt design.now number states.now }
    ensures { IsTrue result → NoRefusalAt design.now arc edge number }
{
    let Some(net) = design.flat()[arc].target else {
        return false;
    };
    is_driven(design.netlist(), net) && !is_stuck(states[net].at(edge))
}

// The look-up of an edge of an arc that is refused at a corner.
fn refusal_at<C: CornerSet, L: Ledger>(
    design: &Design<'_, C>,
    arc: usize,
    edge: Edge,
    number: usize,
    states: &[EdgeStates],
    steps: &mut Steps<L>,
) -> Option<PartEnd>
    requires none { HasNoCycle design.now.netlist design.now.cells }
    requires arc { arc < length (arcs_in design.now) }
    requires corner { number < design.now.count }
    requires states { AreStatesAt design.now number states.now }
    ensures refused { IfSome result (IsRefusal design.now arc edge number) }
    ensures none { IfNone result (NoRefusalAt design.now arc edge number) }
    ensures steps { steps.new ≤ steps.old + 64 * (if has_edge (arc_at (flat_in design.now) arc) edge then 1 else 0) }
{
    if !design.flat()[arc].has(edge) {
        return None;
    }
    if is_taken(design, arc, edge, number, states) {
        return None;
    }
    refused_lookup(design, arc, edge, number, states, steps)
}

// The look-up of an edge that an arc has, where it is refused at a corner. It stands by itself since few arcs come here, so that what
// all arcs pass is short.
#[inline(never)]
fn refused_lookup<C: CornerSet, L: Ledger>(
    design: &Design<'_, C>,
    arc: usize,
    edge: Edge,
    number: usize,
    states: &[EdgeStates],
    steps: &mut Steps<L>,
) -> Option<PartEnd>
    requires has { has_edge (arc_at (flat_in design.now) arc) edge ≡ true }
    requires arc { arc < length (arcs_in design.now) }
    requires corner { number < design.now.count }
    requires states { AreStatesAt design.now number states.now }
    ensures refused { IfSome result (IsRefusal design.now arc edge number) }
    ensures none { IfNone result (NoRefusalAt design.now arc edge number) }
    ensures steps { steps.new ≤ steps.old + 64 }
{
    let PinState::Known(slew) = worst_at(design, arc, edge, number, states) else {
        return None;
    };
    let looked = design.lookups(arc, edge, slew, design.corner(number), steps)?;
    looked.refused()
}

// A look-up that is refused, by the number of its corner.
#[derive(Clone, Copy)]
struct CornerEnd {
    corner: usize,
    end: PartEnd,
}

// The first look-up of an edge of an arc that is refused, by corner.
fn refusal_of_edge<C: CornerSet, L: Ledger>(
    design: &Design<'_, C>,
    arc: usize,
    edge: Edge,
    corners: &[NetStates],
    steps: &mut Steps<L>,
) -> Option<CornerEnd>
    requires none { HasNoCycle design.now.netlist design.now.cells }
    requires arc { arc < length (arcs_in design.now) }
    requires states { AreNetStates design.now corners.now }
    ensures refused { IfSome result (λ at. IsRefusal design.now arc edge at.corner at.end) }
    ensures earlier { IfSome result (λ at. NoRefusalTo design.now arc edge at.corner) }
    ensures none { IfNone result (NoRefusalTo design.now arc edge design.now.count) }
    ensures steps { steps.new ≤ steps.old + 64 * (design.now.count * (if has_edge (arc_at (flat_in design.now) arc) edge then 1 else 0)) }
{
    for number in 0..design.corner_count() {
        let states = corners[number].as_slice();
        if let Some(end) = refusal_at(design, arc, edge, number, states, steps) {
            return Some(CornerEnd {
                corner: number,
                end,
            });
        }
    }
    None
}

// The first look-up that is refused, by arc, edge (rise first) and corner. It takes at most 64 steps for each corner and each pair of
// an arc and an edge that it has.
fn first_refusal<C: CornerSet, L: Ledger>(
    design: &Design<'_, C>,
    corners: &[NetStates],
    steps: &mut Steps<L>,
) -> Option<Refusal>
    requires none { HasNoCycle design.now.netlist design.now.cells }
    requires states { AreNetStates design.now corners.now }
    ensures first { IfSome result (λ refusal. IsFirstRefusal design.now refusal.arc refusal.edge refusal.corner refusal.end) }
    ensures none { IfNone result (NoRefusals design.now (length (arcs_in design.now))) }
    ensures steps { steps.new ≤ steps.old + 64 * (design.now.count * edges_in design.now) }
{
    for arc in 0..design.arcs().len() {
        if let Some(at) = refusal_of_edge(design, arc, Edge::Rise, corners, steps) {
            return Some(Refusal {
                arc,
                edge: Edge::Rise,
                corner: at.corner,
                end: at.end,
            });
        }
        if let Some(at) = refusal_of_edge(design, arc, Edge::Fall, corners, steps) {
            return Some(Refusal {
                arc,
                edge: Edge::Fall,
                corner: at.corner,
                end: at.end,
            });
        }
    }
    None
}

/// Asks whether a look-up is refused. It takes at most 64 steps for each corner and each pair of an arc and an edge that it has.
pub(crate) fn ask_lookups<C: CornerSet, L: Ledger>(
    design: &Design<'_, C>,
    corners: &[NetStates],
    steps: &mut Steps<L>,
) -> Result<(), SlewEnd>
    requires none { HasNoCycle design.now.netlist design.now.cells }
    requires states { AreNetStates design.now corners.now }
    ensures refusals { OnOk result (NoRefusals design.now (length (arcs_in design.now))) }
    ensures end { IfErr result (IsSlewEnd design.now) }
    ensures steps { steps.new ≤ steps.old + 64 * (design.now.count * edges_in design.now) }
{
    let Some(refusal) = first_refusal(design, corners, steps) else {
        return Ok(());
    };
    let at = design.arcs()[refusal.arc];
    match refusal.end.end {
        LookupEnd::Outside(outside) => Err(SlewEnd::Outside {
            at,
            edge: refusal.edge,
            corner: refusal.corner,
            part: refusal.end.part,
            outside,
        }),
        LookupEnd::PastTime => Err(SlewEnd::PastTime {
            at,
            edge: refusal.edge,
            corner: refusal.corner,
            part: refusal.end.part,
        }),
    }
}
