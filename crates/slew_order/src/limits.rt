//! The first slew past the limit behind a wire.
ghost use Rattle.std.specs.Prelude.{◌≡◌, ◌<◌, ◌≤◌, get_or, length, IfErr, IfSome, IfNone, OnOk};
ghost use Rattle.netlist_link.specs.FlatNetlist.{net_at};
ghost use Rattle.netlist_link.specs.declared.ends.End.TheVariants.{Port};
ghost use Rattle.slew_states.specs.PinState.{most};
ghost use Rattle.slew_order.specs.Cycles.{HasNoCycle};
ghost use Rattle.slew_order.specs.NetStates.{AreNetStates, AreStatesAt};
ghost use Rattle.slew_order.specs.SlewEnds.{IsPin, IsLimit, IsFirstOfSink, IsFirstLimit, NoLimitAt, NoLimitTo, NoLimitOf, NoLimitOn, NoLimits, NoRefusals, IsSlewEnd};
ghost use Rattle.slew_order.specs.Timings.{arcs_in};

use crate::design::Design;
use crate::ends::SlewEnd;
use crate::net_states::NetStates;
use cell_models::Edge;
use corner_set::CornerSet;
use delay_units::Atto;
use netlist_link::End;
use slew_states::{EdgeStates, PinState};

/// A slew that is past the limit behind a wire, in attoseconds: of the driver of a net, for a sink of it.
#[derive(Clone, Copy)]
pub(crate) struct Limit {
    pub(crate) net: usize,
    pub(crate) sink: usize,
    pub(crate) edge: Edge,
    pub(crate) corner: usize,
    pub(crate) slew: u64,
}

// The slew of the driver of a net at an edge and a corner, where it is past the limit behind the wire to a sink.
fn limit_at<C: CornerSet>(
    design: &Design<'_, C>,
    net: usize,
    sink: usize,
    edge: Edge,
    number: usize,
    states: &[EdgeStates],
) -> Option<u64>
    requires net { net < length design.now.netlist.nets }
    requires sink { sink < length (net_at design.now.netlist net).sinks }
    requires pin { IsPin (get_or (net_at design.now.netlist net).sinks sink (Port 0)) }
    requires corner { number < design.now.count }
    requires states { AreStatesAt design.now number states.now }
    ensures limit { IfSome result (IsLimit design.now net sink edge number) }
    ensures none { IfNone result (NoLimitAt design.now net sink edge number) }
{
    let PinState::Known(slew) = states[net].at(edge) else {
        return None;
    };
    match design.behind(net, sink, design.corner(number), slew) {
        Some(_) => None,
        None => Some(slew),
    }
}

// The first of them at an edge, by corner.
fn limit_of_edge<C: CornerSet>(
    design: &Design<'_, C>,
    net: usize,
    sink: usize,
    edge: Edge,
    corners: &[NetStates],
) -> Option<Limit>
    requires net { net < length design.now.netlist.nets }
    requires sink { sink < length (net_at design.now.netlist net).sinks }
    requires pin { IsPin (get_or (net_at design.now.netlist net).sinks sink (Port 0)) }
    requires states { AreNetStates design.now corners.now }
    ensures here { IfSome result (λ limit. (limit.net ≡ net) × (limit.sink ≡ sink) × (limit.edge ≡ edge)) }
    ensures limit { IfSome result (λ limit. IsLimit design.now net sink edge limit.corner limit.slew) }
    ensures earlier { IfSome result (λ limit. NoLimitTo design.now net sink edge limit.corner) }
    ensures none { IfNone result (NoLimitTo design.now net sink edge design.now.count) }
{
    for number in 0..design.corner_count() {
        let states = corners[number].as_slice();
        if let Some(slew) = limit_at(design, net, sink, edge, number, states) {
            return Some(Limit {
                net,
                sink,
                edge,
                corner: number,
                slew,
            });
        }
    }
    None
}

// The first of them at a sink, which is an input pin then, by edge (rise first) and corner.
fn limit_of_sink<C: CornerSet>(
    design: &Design<'_, C>,
    net: usize,
    sink: usize,
    corners: &[NetStates],
) -> Option<Limit>
    requires net { net < length design.now.netlist.nets }
    requires sink { sink < length (net_at design.now.netlist net).sinks }
    requires states { AreNetStates design.now corners.now }
    ensures here { IfSome result (λ limit. (limit.net ≡ net) × (limit.sink ≡ sink)) }
    ensures first { IfSome result (λ limit. IsFirstOfSink design.now net sink limit.edge limit.corner limit.slew) }
    ensures none { IfNone result (NoLimitOf design.now net sink) }
{
    let End::Pin { .. } = design.netlist().sink(net, sink) else {
        return None;
    };
    if let Some(limit) = limit_of_edge(design, net, sink, Edge::Rise, corners) {
        return Some(limit);
    }
    limit_of_edge(design, net, sink, Edge::Fall, corners)
}

// The first of them on a net, by sink.
fn limit_of_net<C: CornerSet>(
    design: &Design<'_, C>,
    net: usize,
    corners: &[NetStates],
) -> Option<Limit>
    requires net { net < length design.now.netlist.nets }
    requires states { AreNetStates design.now corners.now }
    ensures here { IfSome result (λ limit. limit.net ≡ net) }
    ensures first { IfSome result (λ limit. IsFirstOfSink design.now net limit.sink limit.edge limit.corner limit.slew) }
    ensures sinks { IfSome result (λ limit. NoLimitOn design.now net limit.sink) }
    ensures none { IfNone result (NoLimitOn design.now net (length (net_at design.now.netlist net).sinks)) }
{
    for sink in 0..design.netlist().sink_count(net) {
        if let Some(limit) = limit_of_sink(design, net, sink, corners) {
            return Some(limit);
        }
    }
    None
}

// The first slew of a driver that is past the limit behind the wire to an input pin, by net, sink, edge (rise first) and corner.
fn first_limit<C: CornerSet>(design: &Design<'_, C>, corners: &[NetStates]) -> Option<Limit>
    requires states { AreNetStates design.now corners.now }
    ensures first { IfSome result (λ limit. IsFirstLimit design.now limit.net limit.sink limit.edge limit.corner limit.slew) }
    ensures small { IfSome result (λ limit. limit.slew ≤ most) }
    ensures none { IfNone result (NoLimits design.now (length design.now.netlist.nets)) }
{
    for net in 0..design.netlist().net_count() {
        if let Some(limit) = limit_of_net(design, net, corners) {
            return Some(limit);
        }
    }
    None
}

/// Asks whether a slew is past the limit behind a wire.
pub(crate) fn ask_limits<C: CornerSet>(
    design: &Design<'_, C>,
    corners: &[NetStates],
) -> Result<(), SlewEnd>
    requires none { HasNoCycle design.now.netlist design.now.cells }
    requires refusals { NoRefusals design.now (length (arcs_in design.now)) }
    requires states { AreNetStates design.now corners.now }
    ensures limits { OnOk result (NoLimits design.now (length design.now.netlist.nets)) }
    ensures end { IfErr result (IsSlewEnd design.now) }
{
    let Some(limit) = first_limit(design, corners) else {
        return Ok(());
    };
    let elmore = design.elmore(limit.net, limit.sink, design.corner(limit.corner));
    Err(SlewEnd::SlewLimit {
        net: limit.net,
        sink: limit.sink,
        edge: limit.edge,
        corner: limit.corner,
        slew: Atto(limit.slew as i64),
        elmore,
    })
}
