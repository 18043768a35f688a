//! The arcs of a flat netlist, between its nets.
ghost use Rattle.std.specs.Prelude.{◌≡◌, ℕ, ◌<◌, ◌++◌, length, map, Some, All, IfOk, OnOk, IfSome};
ghost use Rattle.cell_models.specs.Cells.{HasDirection, IsSettled};
ghost use Rattle.cell_models.specs.Shapes.{arc_entry};
ghost use Rattle.cell_models.specs.declared.cell.Direction.TheVariants.{Input};
ghost use Rattle.netlist_link.specs.FlatNetlist.{instance_at};
ghost use Rattle.netlist_link.specs.FlatPins.{pins_of};
ghost use Rattle.slew_states.specs.Arcs.{HaveNets};
ghost use Rattle.slew_order.specs.FlatArcs.{IsArcAt, all_arcs, arc_count, cell_arc, driver_of, drivers_of, flat_arc, flat_at, if_loaded, instance_arcs, net_on};

use crate::arcs::ArcAt;
use cell_models::Arc;
use corner_set::CornerSet;
use edge_io::OutOfMemory;
use edge_io::lists::push;
use netlist_link::{End, LinkedNetlist, Netlist};
use slew_states::{Driver, FlatArc};
use std::alloc::Global;

/// The arcs of all instances, in order of the instances and of the arcs of their cells.
pub(crate) fn all_arcs<C: CornerSet>(
    alloc: Global,
    linked: &LinkedNetlist<C>,
) -> Result<Vec<ArcAt>, OutOfMemory>
    ensures arcs { IfOk result (λ arcs. arcs.items ≡ all_arcs linked.now.netlist linked.now.cells) }
    ensures there { IfOk result (λ arcs. All (IsArcAt linked.now.netlist linked.now.cells) arcs.items) }
{
    let mut arcs = Vec::new(alloc);
    for instance in 0..linked.netlist.instance_count() {
        add_arcs(&mut arcs, instance, arc_count(linked, instance))?;
    }
    Ok(arcs)
}

// How many arcs an instance has.
fn arc_count<C: CornerSet>(linked: &LinkedNetlist<C>, instance: usize) -> usize
    requires within { instance < length linked.now.netlist.instances }
    ensures { result ≡ arc_count linked.now.netlist linked.now.cells instance }
{
    linked
        .cells
        .set(linked.netlist.cell_of(instance))
        .arc_count()
}

// Puts so many arcs of an instance at the end.
fn add_arcs(arcs: &mut Vec<ArcAt>, instance: usize, count: usize) -> Result<(), OutOfMemory>
    ensures { OnOk result (arcs.new.items ≡ arcs.old.items ++ instance_arcs instance count) }
{
    for arc in 0..count {
        push(arcs, ArcAt { instance, arc })?;
    }
    Ok(())
}

/// Arcs of instances as arcs between nets, in their order. The shapes of cells are read at a corner, and are the same at each.
pub(crate) fn flat_arcs<C: CornerSet>(
    alloc: Global,
    linked: &LinkedNetlist<C>,
    arcs: &[ArcAt],
    corner: C::Index,
) -> Result<Vec<FlatArc>, OutOfMemory>
    requires arcs { All (IsArcAt linked.now.netlist linked.now.cells) arcs.now }
    ensures flat { IfOk result (λ flat. flat.items ≡ map (flat_at linked.now.netlist linked.now.cells) arcs.now) }
    ensures nets { IfOk result (λ flat. HaveNets (length linked.now.netlist.nets) flat.items) }
{
    let mut flat = Vec::with_capacity(alloc, arcs.len())?;
    for place in 0..arcs.len() {
        push(&mut flat, flat_at(linked, arcs[place], corner))?;
    }
    Ok(flat)
}

// An arc of an instance as an arc between nets.
#[tactic(auto, using(crate::proofs::Links::same_flat, crate::proofs::Links::net_in))]
fn flat_at<C: CornerSet>(linked: &LinkedNetlist<C>, at: ArcAt, corner: C::Index) -> FlatArc
    requires at { IsArcAt linked.now.netlist linked.now.cells at }
    ensures { result ≡ flat_at linked.now.netlist linked.now.cells at }
{
    flat_arc(&linked.netlist, at.instance, cell_arc(linked, at, corner))
}

/// An arc of an instance as it is at a corner.
#[tactic(auto, using(crate::proofs::Links::same_entry, crate::proofs::Links::input_at, crate::proofs::Links::pins_there, crate::proofs::Links::cell_there))]
pub fn cell_arc<'a, C: CornerSet>(
    linked: &'a LinkedNetlist<C>,
    at: ArcAt,
    corner: C::Index,
) -> &'a Arc
    requires at { IsArcAt linked.now.netlist linked.now.cells at }
    ensures arc { result.now ≡ cell_arc linked.now.netlist linked.now.cells at (C.number_of corner) }
    ensures shape { arc_entry result.now ≡ arc_entry (cell_arc linked.now.netlist linked.now.cells at 0) }
    ensures from { result.now.from < length (instance_at linked.now.netlist at.instance).nets }
    ensures to { result.now.to < length (instance_at linked.now.netlist at.instance).nets }
    ensures input { HasDirection (pins_of linked.now.cells (instance_at linked.now.netlist at.instance).cell)
        (cell_arc linked.now.netlist linked.now.cells at 0).from Input }
    ensures rise { IfSome result.now.rise IsSettled }
    ensures fall { IfSome result.now.fall IsSettled }
{
    let models = linked.cells.set(linked.netlist.cell_of(at.instance));
    // what it keeps
    let _ = models.arc_count();
    models.arc(at.arc, corner)
}

// An arc of an instance, from the net of its related pin to the net of its output pin, where that is loaded.
fn flat_arc(netlist: &Netlist, instance: usize, arc: &Arc) -> FlatArc
    requires within { instance < length netlist.now.instances }
    requires from { arc.now.from < length (instance_at netlist.now instance).nets }
    requires to { arc.now.to < length (instance_at netlist.now instance).nets }
    requires nets { (pin net : ℕ) → net_on netlist.now instance pin ≡ Some net → net < length netlist.now.nets }
    ensures { result ≡ flat_arc netlist.now instance arc.now }
{
    FlatArc {
        source: netlist.net_of(instance, arc.from),
        target: if_loaded(netlist, netlist.net_of(instance, arc.to)),
        kind: arc.kind,
        rise: arc.rise.is_some(),
        fall: arc.fall.is_some(),
    }
}

/// The net, if it has a sink.
pub(crate) fn if_loaded(netlist: &Netlist, net: Option<usize>) -> Option<usize>
    requires { (this : ℕ) → net ≡ Some this → this < length netlist.now.nets }
    ensures { result ≡ if_loaded netlist.now net }
{
    let net = net?;
    if netlist.sink_count(net) == 0 {
        None
    } else {
        Some(net)
    }
}

/// What drives each net.
pub(crate) fn drivers_of(alloc: Global, netlist: &Netlist) -> Result<Vec<Driver>, OutOfMemory>
    ensures { IfOk result (λ drivers. drivers.items ≡ drivers_of netlist.now) }
{
    let mut drivers = Vec::new(alloc);
    for net in 0..netlist.net_count() {
        push(&mut drivers, driver_of(netlist.driver(net)))?;
    }
    Ok(drivers)
}

fn driver_of(driver: Option<End>) -> Driver
    ensures { result ≡ driver_of driver }
{
    match driver {
        None => Driver::Nothing,
        Some(End::Port(_)) => Driver::Port,
        Some(End::Pin { .. }) => Driver::Pin,
    }
}
