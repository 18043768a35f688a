//! The rows of a net.
ghost use Rattle.std.specs.Prelude.{◌≡◌, ◌+◌, ◌*◌, ◌^◌, ◌<◌, ◌≤◌, [], ◌∷◌, length, OnOk, IfOk, Err};
ghost use Rattle.rc_tree.specs.Arenas.{node_count};
ghost use Rattle.rc_tree.specs.ListedPins.{listed_pins};
ghost use Rattle.rc_tree.specs.Builds.{IsTreeOf};
ghost use Rattle.wire_phases.specs.WireNets.{HasDriver, NetGives, IsNoTree};
ghost use Rattle.wire_phases.specs.NetRows.{most_steps, HasDelays, AddsRow, AddsRows, AddsNetRows};
ghost use Rattle.refusals.specs.Refused.{OnRefusal};

use crate::net_pins::{DriverEnd, driver_of};
use corner_set::{Grid, Single};
use delay_units::Femto;
use edge_io::{OutOfMemory, Steps, Text};
use elmore_pass::{elmore_into, sink_femto};
use rc_tree::{ListedPins, RcTree, Scratch, TreeEnd, Workspace, no_stranger};
use refusals::{LimitKind, Refusal};
use sdf_writer::Rows;
use spef_nets::Net;
use std::alloc::Global;
use std::sync::ledger::Ledger;
use verdict_phases::NoFileEnd;

// Puts a time in the one place of a grid.
fn put_delay(delay: &mut Grid<Single, Femto>, time: Femto)
    requires { length delay.old.values ≡ 1 }
    ensures { delay.new.values ≡ time ∷ [] }
{
    delay.set(0, (), time);
}

// Adds the row of the wire to a sink, from the driver as SDF spells it. The grid has one row, which is used anew.
fn add_row<L: Ledger>(
    alloc: Global,
    net: &Net<Single>,
    pins: &ListedPins,
    from: &Text,
    tree: &RcTree<Single>,
    delays: &Scratch<Single>,
    sink: usize,
    delay: &mut Grid<Single, Femto>,
    rows: &mut Rows<Single>,
    steps: &mut Steps<L>,
) -> Result<(), OutOfMemory>
    requires from { from.now ≡ (listed_pins 1 net.now pins.now.driver).driver.sdf }
    requires one_row { length delay.old.values ≡ 1 }
    requires delays { HasDelays tree.now delays.now }
    requires sinks { length tree.now.sinks ≡ length (listed_pins 1 net.now pins.now.driver).sinks }
    requires within { sink < length (listed_pins 1 net.now pins.now.driver).sinks }
    requires fits { sink + 1 < 2 ^ 64 }
    ensures row { OnOk result (AddsRow (listed_pins 1 net.now pins.now.driver) tree.now sink rows.old rows.new) }
    ensures one_row { length delay.new.values ≡ 1 }
    ensures step { steps.new ≡ steps.old + 1 }
{
    let elmore = delays.value(tree.sink(sink), (), steps);
    put_delay(delay, sink_femto(elmore));
    let from = Text::from_bytes(alloc, from.bytes())?;
    let to = pins.sink_sdf(alloc, net, sink)?;
    rows.add_wire(from, to, delay)
}

// Adds the rows of the wires to all sinks.
fn add_rows<L: Ledger>(
    alloc: Global,
    net: &Net<Single>,
    pins: &ListedPins,
    tree: &RcTree<Single>,
    delays: &Scratch<Single>,
    delay: &mut Grid<Single, Femto>,
    rows: &mut Rows<Single>,
    steps: &mut Steps<L>,
) -> Result<(), OutOfMemory>
    requires driver { pins.now.driver < length net.now.conns }
    requires one_row { length delay.old.values ≡ 1 }
    requires delays { HasDelays tree.now delays.now }
    requires sinks { length tree.now.sinks ≡ length (listed_pins 1 net.now pins.now.driver).sinks }
    ensures rows { OnOk result
        (AddsRows (listed_pins 1 net.now pins.now.driver) tree.now
        (length (listed_pins 1 net.now pins.now.driver).sinks) rows.old rows.new) }
    ensures one_row { length delay.new.values ≡ 1 }
    ensures steps { steps.new ≤ steps.old + length (listed_pins 1 net.now pins.now.driver).sinks }
{
    let driver = pins.driver_sdf(alloc, net)?;
    for sink in 0..pins.len(net) {
        add_row(
            alloc, net, pins, &driver, tree, delays, sink, delay, rows, steps,
        )?;
    }
    Ok(())
}

// The place of the one connection that drives a net, which is refused without one.
#[tactic(auto, using(crate::specs::WireNets::no_driver, crate::specs::WireNets::many_drivers))]
fn sole_driver(alloc: Global, net: &Net<Single>) -> Result<usize, NoFileEnd<Refusal>>
    ensures driver { IfOk result (HasDriver net.now) }
    ensures within { IfOk result (λ driver. driver < length net.now.conns) }
    ensures refused { OnRefusal result (λ refusal. NetGives 1 net.now (Err refusal)) }
{
    match driver_of(net) {
        Ok(driver) => Ok(driver),
        Err(DriverEnd::NoDriver) => {
            let net = Text::from_bytes(alloc, net.net())?;
            Err(NoFileEnd::Refused(Refusal::NoDriver { net }))
        }
        Err(DriverEnd::ManyDrivers) => {
            let net = Text::from_bytes(alloc, net.net())?;
            Err(NoFileEnd::Refused(Refusal::ManyDrivers { net }))
        }
    }
}

// Makes the tree that of a net, which is refused without one. Each of its connections is a pin.
#[tactic(auto, using(crate::specs::WireNets::too_large, crate::specs::WireNets::unreached, crate::specs::WireNets::mesh))]
fn put_tree<L: Ledger>(
    alloc: Global,
    workspace: &mut Workspace,
    tree: &mut RcTree<Single>,
    net: &Net<Single>,
    pins: &ListedPins,
    steps: &mut Steps<L>,
) -> Result<(), NoFileEnd<Refusal>>
    requires { pins.now.driver < length net.now.conns }
    ensures tree { OnOk result (IsTreeOf 1 net.now (listed_pins 1 net.now pins.now.driver) tree.new) }
    ensures refused { OnRefusal result (IsNoTree 1 net.now (listed_pins 1 net.now pins.now.driver)) }
    ensures nodes { OnOk result (node_count tree.new ≤ length net.now.joints + 1) }
    ensures steps { steps.new ≤ steps.old + 2 * length net.now.joints + length net.now.caps }
{
    no_stranger();
    match tree.rebuild(alloc, workspace, net, pins, steps) {
        Ok(()) => Ok(()),
        Err(TreeEnd::StrangePin(_)) => unreachable!(),
        Err(TreeEnd::TooLarge) => {
            let net = Text::from_bytes(alloc, net.net())?;
            Err(NoFileEnd::Refused(Refusal::Limit(LimitKind::Net(net))))
        }
        Err(TreeEnd::Unreached(node)) => {
            let net = Text::from_bytes(alloc, net.net())?;
            Err(NoFileEnd::Refused(Refusal::Unreached { net, node }))
        }
        Err(TreeEnd::Mesh(resistor)) => {
            let net = Text::from_bytes(alloc, net.net())?;
            Err(NoFileEnd::Refused(Refusal::Mesh { net, resistor }))
        }
        Err(TreeEnd::OutOfMemory) => Err(NoFileEnd::OutOfMemory),
    }
}

// The Elmore delays of a tree, in the scratch of the nets before, or in a larger one.
fn put_delays<L: Ledger>(
    alloc: Global,
    tree: &RcTree<Single>,
    delays: &mut Scratch<Single>,
    steps: &mut Steps<L>,
) -> Result<(), OutOfMemory>
    ensures delays { OnOk result (HasDelays tree.now delays.new) }
    ensures steps { steps.new ≤ steps.old + 12 * node_count tree.now }
{
    delays.make_room(alloc, tree.len())?;
    elmore_into(tree, delays, steps);
    Ok(())
}

/// Adds the rows of a net's wires, one for each sink, or refuses the net. One workspace, one tree, one scratch and one grid serve all
/// nets.
#[tactic(auto, using(crate::specs::WireNets::no_tree, crate::specs::WireNets::is_tree))]
pub fn add_net_rows<L: Ledger>(
    alloc: Global,
    net: &Net<Single>,
    workspace: &mut Workspace,
    tree: &mut RcTree<Single>,
    delays: &mut Scratch<Single>,
    delay: &mut Grid<Single, Femto>,
    rows: &mut Rows<Single>,
    steps: &mut Steps<L>,
) -> Result<(), NoFileEnd<Refusal>>
    requires one_row { length delay.old.values ≡ 1 }
    ensures rows { OnOk result (AddsNetRows net.now rows.old rows.new) }
    ensures refused { OnRefusal result (λ refusal. NetGives 1 net.now (Err refusal)) }
    ensures one_row { length delay.new.values ≡ 1 }
    ensures steps { steps.new ≤ steps.old + most_steps 1 net.now }
{
    let driver = sole_driver(alloc, net)?;
    let pins = ListedPins { driver };
    put_tree(alloc, workspace, tree, net, &pins, steps)?;
    put_delays(alloc, tree, delays, steps)?;
    add_rows(alloc, net, &pins, tree, delays, delay, rows, steps)?;
    Ok(())
}
