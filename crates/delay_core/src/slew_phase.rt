//! The phases that find the slews of a design's pins.
ghost use Rattle.std.specs.Prelude.{◌≡◌, ◌+◌, ◌*◌, ◌<◌, ◌≤◌, length, map, unsigned_abs, IfOk, All};
ghost use Rattle.netlist_link.specs.declared.ends.End.TheVariants as end;
ghost use Rattle.slew_states.specs.Settled.{arc_edges};
ghost use Rattle.slew_order.specs.FlatArcs.{IsArcAt, flat_arcs};
ghost use Rattle.slew_order.specs.Timings.{source_of};
ghost use Rattle.slew_order.specs.declared.ends.SlewEnd.TheVariants as slew_end;
ghost use Rattle.net_parasitics.specs.NetPins.{IsEnd};
ghost use Rattle.verdict_phases.specs.Phases.{FollowsNoFile};
ghost use Rattle.delay_core.specs.DesignTiming.{AreInRange};
ghost use Rattle.delay_core.specs.EndsThere.{IsPinSink, IsEndThere};
ghost use Rattle.delay_core.specs.SlewPhase.{instance_text, pin_text, from_text, to_text, related_text, IsSlewRefusal, FindsSlews};

use crate::settings::Settings;
use cell_models::Edge;
use corner_set::{CornerSet, first_corner};
use delay_units::Atto;
use edge_io::{OutOfMemory, Steps, Text, TextList};
use netlist_link::{End, LinkedNetlist};
use nldm_lookup::LookupEnd;
use refusals::{ArcNames, Refusal, refused_look_up};
use slew_order::{ArcAt, ArcList, LoadedNetlist, SlewEnd, Slews, cell_arc, propagate};
use std::alloc::Global;
use std::sync::ledger::Ledger;
use verdict_phases::NoFileEnd;

// The name of a pin of an instance.
fn pin_name<C: CornerSet>(
    alloc: Global,
    linked: &LinkedNetlist<C>,
    instance: usize,
    pin: usize,
) -> Result<Text, OutOfMemory>
    requires { IsEnd linked.now.netlist linked.now.cells (end.Pin instance pin) }
    ensures { IfOk result (λ name. name ≡ pin_text linked.now.netlist linked.now.cells instance pin) }
{
    let models = linked.cells.set(linked.netlist.cell_of(instance));
    let pin = models.pin(pin, first_corner::<C>());
    Text::from_bytes(alloc, pin.name.bytes())
}

// The names of an arc.
fn arc_names<C: CornerSet>(
    alloc: Global,
    linked: &LinkedNetlist<C>,
    at: ArcAt,
) -> Result<ArcNames, OutOfMemory>
    requires { IsArcAt linked.now.netlist linked.now.cells at }
    ensures instance { IfOk result (λ names. names.instance ≡ instance_text linked.now.netlist at.instance) }
    ensures from { IfOk result (λ names. names.from ≡ from_text linked.now.netlist linked.now.cells at) }
    ensures to { IfOk result (λ names. names.to ≡ to_text linked.now.netlist linked.now.cells at) }
{
    let arc = cell_arc(linked, at, first_corner::<C>());
    Ok(ArcNames {
        instance: Text::from_bytes(alloc, linked.netlist.instance_text(at.instance))?,
        from: pin_name(alloc, linked, at.instance, arc.from)?,
        to: pin_name(alloc, linked, at.instance, arc.to)?,
    })
}

// The name of the net that the related pin of an arc is on.
fn related_name<C: CornerSet>(
    alloc: Global,
    linked: &LinkedNetlist<C>,
    at: ArcAt,
) -> Result<Text, OutOfMemory>
    requires { IsArcAt linked.now.netlist linked.now.cells at }
    ensures { IfOk result (λ name. name ≡ related_text linked.now.netlist linked.now.cells at) }
{
    let arc = cell_arc(linked, at, first_corner::<C>());
    match linked.netlist.net_of(at.instance, arc.from) {
        Some(net) => Text::from_bytes(alloc, linked.netlist.net_text(net)),
        None => Ok(Text::new(alloc)),
    }
}

// The nets of a loop, one for each arc.
fn loop_nets<C: CornerSet>(
    alloc: Global,
    linked: &LinkedNetlist<C>,
    cycle: &ArcList,
) -> Result<TextList, OutOfMemory>
    requires { All (IsArcAt linked.now.netlist linked.now.cells) cycle.now }
    ensures { IfOk result (λ nets. nets ≡ map (related_text linked.now.netlist linked.now.cells) cycle.now) }
{
    let mut nets = TextList::new(alloc);
    for place in 0..cycle.len() {
        let net = related_name(alloc, linked, cycle.get(place))?;
        nets.push(net)?;
    }
    Ok(nets)
}

// The refusal of a slew that is past its limit behind a wire.
#[tactic(auto, using(crate::specs::SlewPhase::is_slew_limit))]
fn limit_refusal<C: CornerSet>(
    alloc: Global,
    linked: &LinkedNetlist<C>,
    net: usize,
    sink: usize,
    edge: Edge,
    corner: usize,
    slew: Atto,
    elmore: u128,
) -> Result<Refusal, OutOfMemory>
    requires { IsPinSink linked.now.netlist net sink }
    ensures { IfOk result (IsSlewRefusal linked.now.netlist linked.now.cells (slew_end.SlewLimit net sink edge corner slew elmore)) }
{
    match linked.netlist.sink(net, sink) {
        End::Pin { instance, pin } => Ok(Refusal::SlewLimit {
            net: Text::from_bytes(alloc, linked.netlist.net_text(net))?,
            instance: Text::from_bytes(alloc, linked.netlist.instance_text(instance))?,
            pin: pin_name(alloc, linked, instance, pin)?,
            edge,
            corner,
            slew,
            elmore,
        }),
        End::Port(_) => unreachable!(),
    }
}

// The refusal of a design that has no slews.
#[tactic(auto, using(crate::specs::SlewPhase::is_loop, crate::specs::SlewPhase::is_outside, crate::specs::SlewPhase::is_past_time))]
fn slew_refusal<C: CornerSet>(
    alloc: Global,
    linked: &LinkedNetlist<C>,
    end: SlewEnd,
) -> Result<Refusal, OutOfMemory>
    requires { IsEndThere linked.now.netlist linked.now.cells end }
    ensures { IfOk result (IsSlewRefusal linked.now.netlist linked.now.cells end) }
{
    match end {
        SlewEnd::Loop(cycle) => {
            let nets = loop_nets(alloc, linked, &cycle)?;
            Ok(Refusal::Loop { nets })
        }
        SlewEnd::Outside {
            at,
            edge,
            corner,
            part,
            outside,
        } => {
            let names = arc_names(alloc, linked, at)?;
            let end = LookupEnd::Outside(outside);
            Ok(refused_look_up(names, edge, corner, part, end))
        }
        SlewEnd::PastTime {
            at,
            edge,
            corner,
            part,
        } => {
            let names = arc_names(alloc, linked, at)?;
            let end = LookupEnd::PastTime;
            Ok(refused_look_up(names, edge, corner, part, end))
        }
        SlewEnd::SlewLimit {
            net,
            sink,
            edge,
            corner,
            slew,
            elmore,
        } => limit_refusal(alloc, linked, net, sink, edge, corner, slew, elmore),
        SlewEnd::OutOfMemory => Err(OutOfMemory),
    }
}

/// The slews of the pins of a design with these loads and Elmore sums: those of [`propagate`], or its end as a refusal.
#[tactic(auto, using(crate::specs::SlewPhase::are_slews, crate::specs::SlewPhase::no_slews, crate::proofs::SlewEnds::end_there))]
pub fn find_slews<C: CornerSet, L: Ledger>(
    alloc: Global,
    loaded: &LoadedNetlist<'_, C>,
    settings: &Settings,
    steps: &mut Steps<L>,
) -> Result<Slews<C>, NoFileEnd<Refusal>>
    requires settings { AreInRange settings.now }
    ensures follows { FollowsNoFile (FindsSlews (source_of loaded.now.linked.now.netlist loaded.now.linked.now.cells C.COUNT
        loaded.now.nets.now settings.now.beyond
        settings.now.wire_slew (unsigned_abs settings.now.input_slew.0))) result }
    ensures steps { steps.new ≤ steps.old + 128 * (C.COUNT * arc_edges (flat_arcs loaded.now.linked.now.netlist
        loaded.now.linked.now.cells)) }
{
    match propagate(
        alloc,
        loaded,
        settings.input_slew,
        settings.beyond,
        settings.wire_slew,
        steps,
    ) {
        Ok(slews) => Ok(slews),
        Err(end) => {
            let refusal = slew_refusal(alloc, loaded.linked, end)?;
            Err(NoFileEnd::Refused(refusal))
        }
    }
}
