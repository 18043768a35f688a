//! What drives the nets of a flat design, and what they drive.
ghost use Rattle.std.specs.Prelude.{◌≡◌, true, ℕ, ◌<◌, ◌^◌, Bool, List, [], ◌∷◌, ◌++◌, length, replicate, get_or, Option, None, option_to_list, IfOk, IfErr, OnOk};
ghost use Rattle.cell_models.specs.NamedSets.{NamedCells};
ghost use Rattle.cell_models.specs.declared.cell.Direction.{Direction};
ghost use Rattle.cell_models.specs.declared.cell.Direction.TheVariants.{Input, Output};
ghost use Rattle.netlist_link.specs.FlatNetlist.{port_ends, end_at, pin_ends, instance_ends, driving_ends, driven_ends};
ghost use Rattle.netlist_link.specs.FlatPins.{pins_of};
ghost use Rattle.netlist_link.specs.Grouping.{AreOnNets};
ghost use Rattle.netlist_link.specs.InstanceTables.{row_at, kept_instance, instances_in};
ghost use Rattle.netlist_link.specs.JointTables.{AreAllPins};
ghost use Rattle.netlist_link.specs.KeptEnds.{flat_ends, Selects, wanted_end, HaveCells, AreDrivers, IsDriverEnd, IsDriversEnd};
ghost use Rattle.netlist_link.specs.PortRows.{kept_port, ports_in, ArePortTables};

use crate::cell_pins::CellPins;
use crate::checking::Design;
use crate::ends::LinkEnd;
use crate::grouping::{EndOn, KeptEnd, by_net};
use crate::instances::Instances;
use crate::ports::Ports;
use cell_models::Direction;
use edge_io::lists::{push, to_u32};
use edge_io::{OutOfMemory, Text};
use std::alloc::Global;
use text_table::FlatTexts;

// Puts a port at the end, if it is of this way.
fn add_port_end(
    ports: &Ports,
    inputs: bool,
    p: usize,
    ends: &mut Vec<EndOn>,
) -> Result<(), OutOfMemory>
    requires tables { ArePortTables ports.now }
    requires within { p < length ports.now.nets.items }
    ensures { OnOk result (flat_ends ends.new.items ≡ flat_ends ends.old.items ++ port_ends inputs p (kept_port ports.now p ∷ [])) }
{
    if ports.are_inputs[p] != inputs {
        return Ok(());
    }
    let at = KeptEnd::Port(to_u32(p)?);
    let net = ports.nets[p];
    push(ends, EndOn { net, at })
}

// Puts the ports of one way at the end.
fn add_port_ends(ports: &Ports, inputs: bool, ends: &mut Vec<EndOn>) -> Result<(), OutOfMemory>
    requires { ArePortTables ports.now }
    ensures { OnOk result (flat_ends ends.new.items ≡ flat_ends ends.old.items ++ port_ends inputs 0 (ports_in ports.now)) }
{
    for p in 0..ports.nets.len() {
        add_port_end(ports, inputs, p, ends)?;
    }
    Ok(())
}

// Puts a pin at the end, if it is on a net.
fn add_pin(net: Option<u32>, i: usize, j: usize, ends: &mut Vec<EndOn>) -> Result<(), OutOfMemory>
    ensures { OnOk result (flat_ends ends.new.items ≡ flat_ends ends.old.items ++ end_at i j net) }
{
    let Some(net) = net else {
        return Ok(());
    };
    let at = KeptEnd::Pin {
        instance: to_u32(i)?,
        pin: to_u32(j)?,
    };
    push(ends, EndOn { net, at })
}

// Puts a pin at the end of what drives nets if it is an output, and of what they drive if it is an input.
fn add_pin_end(
    direction: Direction,
    net: Option<u32>,
    i: usize,
    j: usize,
    driving: &mut Vec<EndOn>,
    driven: &mut Vec<EndOn>,
) -> Result<(), OutOfMemory>
    ensures driving { (test : Direction → Bool) → Selects test Output
        → OnOk result (flat_ends driving.new.items ≡ flat_ends driving.old.items ++ wanted_end test i j direction net) }
    ensures driven { (test : Direction → Bool) → Selects test Input
        → OnOk result (flat_ends driven.new.items ≡ flat_ends driven.old.items ++ wanted_end test i j direction net) }
{
    match direction {
        Direction::Output => add_pin(net, i, j, driving),
        Direction::Input => add_pin(net, i, j, driven),
        _ => Ok(()),
    }
}

// The directions of the pins of a cell.
fn directions<'a>(pins: &'a CellPins<'_>) -> &'a [Direction]
    ensures { result.now ≡ pins.now.directions.items }
{
    pins.directions.as_slice()
}

// Puts the outputs of an instance at the end of what drives nets, and its inputs at the end of what they drive.
fn add_pin_ends(
    design: &Design<'_>,
    instances: &Instances,
    i: usize,
    driving: &mut Vec<EndOn>,
    driven: &mut Vec<EndOn>,
) -> Result<(), OutOfMemory>
    requires cells { HaveCells design.now instances.now }
    requires within { i < length instances.now.rows.items }
    ensures driving { (cells : List NamedCells) (test : Direction → Bool) → AreAllPins cells (length cells) design.now.pins.now
        → Selects test Output
        → OnOk result (flat_ends driving.new.items ≡ flat_ends driving.old.items
        ++ pin_ends test i 0 (pins_of cells (row_at instances.now i).cell) (kept_instance instances.now i).nets) }
    ensures driven { (cells : List NamedCells) (test : Direction → Bool) → AreAllPins cells (length cells) design.now.pins.now
        → Selects test Input
        → OnOk result (flat_ends driven.new.items ≡ flat_ends driven.old.items
        ++ pin_ends test i 0 (pins_of cells (row_at instances.now i).cell) (kept_instance instances.now i).nets) }
{
    let row = instances.rows[i];
    let directions = directions(&design.pins[row.cell as usize]);
    for j in 0..directions.len() {
        let net = instances.pin_nets[row.first_pin as usize + j];
        add_pin_end(directions[j], net, i, j, driving, driven)?;
    }
    Ok(())
}

// Puts the outputs of all instances at the end of what drives nets, and their inputs at the end of what they drive.
fn add_instance_ends(
    design: &Design<'_>,
    instances: &Instances,
    driving: &mut Vec<EndOn>,
    driven: &mut Vec<EndOn>,
) -> Result<(), OutOfMemory>
    requires { HaveCells design.now instances.now }
    ensures driving { (cells : List NamedCells) (test : Direction → Bool) → AreAllPins cells (length cells) design.now.pins.now
        → Selects test Output → OnOk result (flat_ends driving.new.items
        ≡ flat_ends driving.old.items ++ instance_ends cells test 0 (instances_in instances.now)) }
    ensures driven { (cells : List NamedCells) (test : Direction → Bool) → AreAllPins cells (length cells) design.now.pins.now
        → Selects test Input → OnOk result (flat_ends driven.new.items
        ≡ flat_ends driven.old.items ++ instance_ends cells test 0 (instances_in instances.now)) }
{
    for i in 0..instances.rows.len() {
        add_pin_ends(design, instances, i, driving, driven)?;
    }
    Ok(())
}

/// The ends of nets: what drives nets, and what they drive.
#[derive(Drop)]
pub(crate) struct NetEnds {
    pub driving: Vec<EndOn>,
    pub driven: Vec<EndOn>,
}

/// The ends of all nets, in one pass over the pins. More than 2 ^ 32 - 1 that drive or are driven are a want of memory.
pub(crate) fn net_ends(
    alloc: Global,
    design: &Design<'_>,
    ports: &Ports,
    instances: &Instances,
) -> Result<NetEnds, OutOfMemory>
    requires ports { ArePortTables ports.now }
    requires cells { HaveCells design.now instances.now }
    ensures driving { (cells : List NamedCells) → AreAllPins cells (length cells) design.now.pins.now
        → IfOk result (λ ends. flat_ends ends.driving.items ≡ driving_ends cells (ports_in ports.now) (instances_in instances.now)) }
    ensures driven { (cells : List NamedCells) → AreAllPins cells (length cells) design.now.pins.now
        → IfOk result (λ ends. flat_ends ends.driven.items ≡ driven_ends cells (ports_in ports.now) (instances_in instances.now)) }
    ensures few_driving { IfOk result (λ ends. length ends.driving.items < 2 ^ 32) }
    ensures few_driven { IfOk result (λ ends. length ends.driven.items < 2 ^ 32) }
{
    // Most cells have one output, and each bit of a port is an end.
    let many = instances.rows.len().saturating_add(ports.nets.len());
    let mut driving = Vec::with_capacity(alloc, many)?;
    let mut driven = Vec::with_capacity(alloc, many)?;
    add_port_ends(ports, true, &mut driving)?;
    add_instance_ends(design, instances, &mut driving, &mut driven)?;
    add_port_ends(ports, false, &mut driven)?;
    to_u32(driving.len())?;
    to_u32(driven.len())?;
    Ok(NetEnds { driving, driven })
}

// The end that is alone on a net, or none; two or more are the end of it.
#[tactic(auto, using(crate::specs::KeptEnds::several_drive_it, crate::specs::KeptEnds::no_memory_for_it))]
fn driver_of(
    alloc: Global,
    nets: &FlatTexts,
    n: usize,
    ends: &[KeptEnd],
) -> Result<Option<KeptEnd>, LinkEnd>
    requires { n < length nets.now }
    ensures alone { IfOk result (λ driver. option_to_list driver ≡ ends.now) }
    ensures several { IfErr result (λ end. IsDriverEnd nets.now n (length ends.now) end) }
{
    if ends.len() > 1 {
        let text = Text::from_bytes(alloc, nets.text(n))?;
        return Err(LinkEnd::SeveralDrivers(text));
    }
    Ok(ends.first().copied())
}

// Keeps what drives each net, as long as no net has two.
fn keep_drivers(drivers: &mut [Option<KeptEnd>], driving: &[EndOn]) -> bool
    requires on { AreOnNets (length drivers.old) driving.now }
    requires none { drivers.old ≡ replicate (length drivers.old) None }
    ensures { result ≡ true → AreDrivers (length drivers.old) driving.now drivers.new }
{
    for end in driving {
        if drivers[end.net as usize].is_some() {
            return false;
        }
        drivers[end.net as usize] = Some(end.at);
    }
    true
}

// So many nets without a driver.
fn no_drivers(alloc: Global, nets: usize) -> Result<Vec<Option<KeptEnd>>, OutOfMemory>
    ensures { IfOk result (λ drivers. drivers.items ≡ replicate nets None) }
{
    let mut drivers = Vec::new(alloc);
    drivers.resize(nets, None)?;
    Ok(drivers)
}

// The driver of each net, or the first net that has two, net by net.
#[tactic(auto, using(crate::specs::KeptEnds::no_memory_for))]
fn drivers_by_net(
    alloc: Global,
    nets: &FlatTexts,
    driving: &[EndOn],
) -> Result<Vec<Option<KeptEnd>>, LinkEnd>
    requires few { length driving.now < 2 ^ 32 }
    requires on { AreOnNets (length nets.now) driving.now }
    ensures drivers { IfOk result (λ drivers. AreDrivers (length nets.now) driving.now drivers.items) }
    ensures refused { IfErr result (IsDriversEnd nets.now driving.now) }
{
    let by_net = by_net(alloc, nets.len(), driving)?;
    let mut drivers = Vec::new(alloc);
    for n in 0..nets.len() {
        let driver = match driver_of(alloc, nets, n, by_net.on(n)) {
            Ok(driver) => driver,
            Err(end) => return Err(end),
        };
        push(&mut drivers, driver)?;
    }
    Ok(drivers)
}

/// The driver of each net, or the first net that has two. It takes one pass over what drives where no net has two; the ends are put
/// together by their nets only to find the first that has.
#[tactic(auto, using(crate::specs::KeptEnds::no_memory_for))]
pub(crate) fn drivers_of(
    alloc: Global,
    nets: &FlatTexts,
    driving: &[EndOn],
) -> Result<Vec<Option<KeptEnd>>, LinkEnd>
    requires few { length driving.now < 2 ^ 32 }
    requires on { AreOnNets (length nets.now) driving.now }
    ensures drivers { IfOk result (λ drivers. AreDrivers (length nets.now) driving.now drivers.items) }
    ensures refused { IfErr result (IsDriversEnd nets.now driving.now) }
{
    let mut drivers = no_drivers(alloc, nets.len())?;
    if keep_drivers(drivers.as_mut_slice(), driving) {
        return Ok(drivers);
    }
    drivers_by_net(alloc, nets, driving)
}
