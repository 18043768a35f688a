//! The connections of all instances along the walk: to which port or pin each leads, or the first that cannot be made.
ghost use Rattle.std.specs.Prelude.{◌≡◌, [], ◌∷◌, ◌++◌, ◌<◌, List, length, false, IfOk, OnOk, IfErr, IfSome};
ghost use Rattle.std.specs.List.{position_or_len};
ghost use Rattle.std.specs.Str.{bytes_eq};
ghost use Rattle.name_table.specs.Names.{AreDistinct};
ghost use Rattle.cell_models.specs.declared.cell.Pin.{Pin};
ghost use Rattle.verilog_netlist.specs.NetModules.{module_at};
ghost use Rattle.netlist_link.specs.LinkEnds.{joint_of_name, joint_of_pin, port_named, pin_named, is_end, joint_faults, instance_faults, all_faults};
ghost use Rattle.netlist_link.specs.Clashes.{text_of};
ghost use Rattle.netlist_link.specs.Designs.{AreAllPorts, IsDesign, HasDesign, HoldsJoints, OverCells, walk_of, IsOfCell, IsSound, IsCellPlace, HaveDistinctPins, joint_here, number_here, met_of, OfCells, IsJoinedInstance, joint_in, has_port_name, IsFirstOf, IsMade};
ghost use Rattle.netlist_link.specs.PathTables.{IsWalk, top_of, visit_at, ArePaths};
ghost use Rattle.hierarchy.specs.Walks.{is_module};
ghost use Rattle.hierarchy.specs.Hierarchy.{module_on, instance_count};
ghost use Rattle.netlist_link.specs.JointTables.{AreCellPins, AreOfCell, AreOfCells, AreAllPins, pin_names};
ghost use Rattle.cell_models.specs.NamedSets.{NamedCells};
ghost use Rattle.netlist_link.specs.FlatPins.{pins_of};
ghost use Rattle.netlist_link.specs.PortTables.{ArePortNumbers, IsPortNamed};

use crate::cell_pins::CellPins;
use crate::ends::LinkEnd;
use crate::flat_names::{Paths, flat_text};
use crate::port_numbers::PortNumbers;
use cell_models::Direction;
use edge_io::lists::{push, to_u32};
use edge_io::{OutOfMemory, Text};
use hierarchy::{InstanceCells, Walk};
use std::alloc::Global;
use verilog_netlist::Modules;

/// A design that is looked at: its modules, its walk with the paths of what is visited, what instances are of with the places of cells,
/// and the tables of the names of ports and of pins.
#[derive(Drop)]
pub(crate) struct Design<'a> {
    pub modules: &'a Modules<'a>,
    pub walk: &'a Walk,
    pub paths: &'a Paths,
    pub cells: &'a InstanceCells,
    pub cell_places: &'a [u32],
    pub ports: &'a [PortNumbers<'a>],
    pub pins: &'a [CellPins<'a>],
}

/// A port of a module or a pin of a cell: its number, its width, and whether a pin of its direction may be connected.
#[derive(Clone, Copy)]
pub(crate) struct KeptJoint {
    pub number: usize,
    pub width: usize,
    pub is_taken: bool,
}

/// The port of this name of a module.
fn port_of(
    modules: &Modules<'_>,
    ports: &PortNumbers<'_>,
    m: usize,
    name: &[u8],
    place: usize,
) -> Option<KeptJoint>
    requires within { m < length modules.now }
    requires ports { ArePortNumbers (module_at modules.now m).names ports.now }
    ensures joint { joint_in result ≡ joint_of_name (port_named (module_at modules.now m) name.now) }
    ensures number { IfSome result (λ joint. joint.number < length (module_at modules.now m).names) }
    ensures named { IfSome result (λ joint. IsPortNamed (module_at modules.now m).names joint.number name.now) }
    ensures place { IfSome result (λ joint. joint.number ≡ position_or_len (has_port_name name.now) (module_at modules.now m).names) }
{
    modules.sound();
    let number = ports.find(name, place)?;
    Some(KeptJoint {
        number,
        width: modules.width(m, number),
        is_taken: true,
    })
}

/// Whether a pin of this direction may be connected: it is an input or an output.
fn is_end(direction: Direction) -> bool
    ensures { result ≡ is_end direction }
{
    match direction {
        Direction::Input => true,
        Direction::Output => true,
        Direction::Inout => false,
        Direction::Internal => false,
    }
}

/// The pin of this name of a cell.
fn pin_of(pins: &CellPins<'_>, name: &[u8], place: usize) -> Option<KeptJoint>
    requires { AreOfCell pins.now }
    ensures joint { (cell : List Pin) → AreCellPins cell pins.now → AreDistinct (pin_names cell)
        → joint_in result ≡ joint_of_pin (pin_named cell name.now) }
    ensures named { (cell : List Pin) → AreCellPins cell pins.now → IfSome result (λ joint. joint.number < length cell) }
    ensures place { (cell : List Pin) → AreCellPins cell pins.now → AreDistinct (pin_names cell)
        → IfSome result (λ joint. joint.number ≡ position_or_len (λ pin. bytes_eq name.now pin.name) cell) }
{
    let number = pins.numbers.find(name, place)?;
    let directions = pins.directions.as_slice();
    Some(KeptJoint {
        number,
        width: 1,
        is_taken: is_end(directions[number]),
    })
}

/// The number of the port or the pin to which a connection of an instance that is met joins so many bits, or why it cannot. The path of
/// the instance is made only where it cannot.
#[tactic(auto, using(crate::specs::Designs::first_is, crate::specs::Designs::no_memory_is))]
fn number_of_joint(
    alloc: Global,
    design: &Design<'_>,
    i: usize,
    port: &[u8],
    joint: Option<KeptJoint>,
    bits: usize,
) -> Result<usize, LinkEnd>
    requires walk { IsWalk design.now.modules.now design.now.walk.now }
    requires paths { ArePaths design.now.modules.now (top_of design.now.walk.now) design.now.paths.now }
    requires within { i < length design.now.walk.now.met }
    ensures made { IfOk result (IsMade (joint_faults (text_of design.now i) port.now (joint_in joint) bits) joint) }
    ensures refused { IfErr result (IsFirstOf (joint_faults (text_of design.now i) port.now (joint_in joint) bits)) }
{
    let Some(joint) = joint else {
        return Err(LinkEnd::UnknownPort {
            instance: instance_text(alloc, design, i)?,
            port: Text::from_bytes(alloc, port)?,
        });
    };
    if bits == 0 {
        return Ok(joint.number);
    }
    if bits != joint.width {
        return Err(LinkEnd::Width {
            instance: instance_text(alloc, design, i)?,
            port: Text::from_bytes(alloc, port)?,
            want: joint.width,
            got: bits,
        });
    }
    if joint.is_taken {
        return Ok(joint.number);
    }
    Err(LinkEnd::InoutPin {
        instance: instance_text(alloc, design, i)?,
        pin: Text::from_bytes(alloc, port)?,
    })
}

/// Where an instance that is met stands: its module, and its number there.
pub(crate) fn place_of(design: &Design<'_>, i: usize) -> (usize, usize)
    requires walk { IsWalk design.now.modules.now design.now.walk.now }
    requires within { i < length design.now.walk.now.met }
    ensures module_is { result.0 ≡ module_on design.now.modules.now (top_of design.now.walk.now) (met_of design.now i).path }
    ensures instance_is { result.1 ≡ (met_of design.now i).instance }
    ensures module_within { result.0 < length design.now.modules.now }
    ensures instance_within { result.1 < instance_count design.now.modules.now result.0 }
{
    let met = design.walk.met();
    let visits = design.walk.visits();
    let visit = visits[met[i].visit as usize];
    (visit.module as usize, met[i].instance as usize)
}

/// The port of this name of a visited module.
fn port_at(design: &Design<'_>, visit: usize, port: &[u8], place: usize) -> Option<KeptJoint>
    requires walk { IsWalk design.now.modules.now design.now.walk.now }
    requires within { visit < length design.now.walk.now.visits }
    requires module_within { (visit_at design.now.walk.now visit).«module» < length design.now.modules.now }
    requires ports { AreAllPorts design.now.modules.now design.now.ports.now }
    ensures joint { joint_in result
        ≡ joint_of_name (port_named (module_at design.now.modules.now (visit_at design.now.walk.now visit).«module») port.now) }
    ensures place { IfSome result (λ joint. joint.number ≡ position_or_len (has_port_name port.now)
        (module_at design.now.modules.now (visit_at design.now.walk.now visit).«module»).names) }
{
    let visits = design.walk.visits();
    let m = visits[visit].module as usize;
    port_of(design.modules, &design.ports[m], m, port, place)
}

/// The pin of this name of the cell at a place.
fn pin_at(design: &Design<'_>, cell: usize, port: &[u8], place: usize) -> Option<KeptJoint>
    requires within { cell < length design.now.pins.now }
    requires pins { AreOfCells design.now.pins.now }
    ensures joint { (cells : List NamedCells) → AreAllPins cells (length cells) design.now.pins.now
        → AreDistinct (pin_names (pins_of cells cell)) → joint_in result ≡ joint_of_pin (pin_named (pins_of cells cell) port.now) }
    ensures place { (cells : List NamedCells) → AreAllPins cells (length cells) design.now.pins.now
        → AreDistinct (pin_names (pins_of cells cell))
        → IfSome result (λ joint. joint.number ≡ position_or_len (λ pin. bytes_eq port.now pin.name) (pins_of cells cell)) }
{
    pin_of(&design.pins[cell], port, place)
}

/// The port or the pin of this name of an instance that is met; the place is that of its cell where it is an instance of a cell.
fn joint_at(
    design: &Design<'_>,
    i: usize,
    cell: usize,
    port: &[u8],
    place: usize,
) -> Option<KeptJoint>
    requires sound { IsSound design.now }
    requires within { i < length design.now.walk.now.met }
    requires cell { IsOfCell design.now i → cell < length design.now.pins.now }
    ensures joint { (cells : List NamedCells) → AreAllPins cells (length cells) design.now.pins.now → HaveDistinctPins cells
        → (is_module design.now.modules.now (top_of design.now.walk.now) (met_of design.now i) ≡ false
        → IsCellPlace cells design.now i cell)
        → joint_in result ≡ joint_here cells design.now i port.now }
    ensures number { (cells : List NamedCells) → AreAllPins cells (length cells) design.now.pins.now → HaveDistinctPins cells
        → (is_module design.now.modules.now (top_of design.now.walk.now) (met_of design.now i) ≡ false
        → IsCellPlace cells design.now i cell)
        → IfSome result (λ joint. joint.number ≡ number_here cells design.now i port.now) }
{
    let met = design.walk.met();
    match met[i].lower {
        Some(visit) => port_at(design, visit as usize, port, place),
        None => pin_at(design, cell, port, place),
    }
}

/// The path of an instance that is met, as text.
pub(crate) fn instance_text(
    alloc: Global,
    design: &Design<'_>,
    i: usize,
) -> Result<Text, OutOfMemory>
    requires walk { IsWalk design.now.modules.now design.now.walk.now }
    requires paths { ArePaths design.now.modules.now (top_of design.now.walk.now) design.now.paths.now }
    requires within { i < length design.now.walk.now.met }
    ensures { IfOk result (λ text. text ≡ text_of design.now i) }
{
    let (m, k) = place_of(design, i);
    let met = design.walk.met();
    flat_text(
        alloc,
        design.paths,
        met[i].visit as usize,
        design.modules.instance_name(m, k),
    )
}

// The numbers of the ports or pins to which the connections of an instance lead, behind those of the instances before.
#[tactic(auto, using(crate::specs::Designs::no_memory_is))]
fn join_instance(
    alloc: Global,
    design: &Design<'_>,
    i: usize,
    cell: usize,
    numbers: &mut Vec<u32>,
) -> Result<(), LinkEnd>
    requires sound { IsSound design.now }
    requires paths { ArePaths design.now.modules.now (top_of design.now.walk.now) design.now.paths.now }
    requires within { i < length design.now.walk.now.met }
    requires cell { IsOfCell design.now i → cell < length design.now.pins.now }
    ensures joined { OnOk result (OfCells design.now i cell (IsJoinedInstance design.now i numbers.old.items numbers.new.items)) }
    ensures refused { IfErr result (λ end. OfCells design.now i cell
        (λ cells. IsFirstOf (instance_faults design.now.modules.now (top_of design.now.walk.now) cells (met_of design.now i)) end)) }
{
    let (m, k) = place_of(design, i);
    for c in 0..design.modules.connection_count(m, k) {
        let port = design.modules.port(m, k, c);
        let bits = design.modules.bit_count(m, k, c);
        let joint = joint_at(design, i, cell, port, c);
        let number = match number_of_joint(alloc, design, i, port, joint, bits) {
            Ok(number) => number,
            Err(end) => return Err(end),
        };
        push(numbers, to_u32(number)?)?;
    }
    Ok(())
}

// The place of the cell of an instance that is met; any number where it is of a module.
fn cell_place(design: &Design<'_>, i: usize) -> usize
    requires design { HasDesign design.now }
    requires within { i < length design.now.walk.now.met }
    ensures place { (cells : List NamedCells) → IsDesign cells design.now → IsOfCell design.now i → IsCellPlace cells design.now i result }
    ensures below { (cells : List NamedCells) → IsDesign cells design.now → IsOfCell design.now i → result < length design.now.pins.now }
{
    let (m, k) = place_of(design, i);
    design.cell_places[design.cells.number(m, k)] as usize
}

/// The ports and pins to which connections lead: for each instance that is met the place of its first connection, the number of the port
/// or the pin of each connection, and for each instance of a cell the place of its cell.
#[derive(Drop)]
pub(crate) struct Joints {
    pub starts: Vec<u32>,
    pub numbers: Vec<u32>,
    pub places: Vec<u32>,
}

// Puts the place of the first connection of an instance, and that of its cell, at the ends.
fn keep_places(
    starts: &mut Vec<u32>,
    places: &mut Vec<u32>,
    start: usize,
    place: usize,
) -> Result<(), OutOfMemory>
    ensures starts { OnOk result (starts.new.items ≡ starts.old.items ++ start ∷ []) }
    ensures places { OnOk result (places.new.items ≡ places.old.items ++ place ∷ []) }
{
    push(starts, to_u32(start)?)?;
    push(places, to_u32(place)?)
}

// An empty list with room for so many numbers.
fn no_numbers(alloc: Global, many: usize) -> Result<Vec<u32>, OutOfMemory>
    ensures { IfOk result (λ numbers. numbers.items ≡ []) }
{
    let numbers = Vec::with_capacity(alloc, many)?;
    Ok(numbers)
}

/// To which ports and pins all connections lead, or the first fault of a connection, along the walk and as written.
#[tactic(auto, using(crate::specs::Designs::no_memory_is))]
pub(crate) fn join_all(alloc: Global, design: &Design<'_>) -> Result<Joints, LinkEnd>
    requires sound { IsSound design.now }
    requires design { HasDesign design.now }
    ensures joined { IfOk result (λ joints. OverCells design.now (HoldsJoints design.now (length (walk_of design.now))
        joints.starts.items joints.numbers.items joints.places.items)) }
    ensures refused { IfErr result (λ end. OverCells design.now
        (λ cells. IsFirstOf (all_faults design.now.modules.now (top_of design.now.walk.now) cells) end)) }
{
    let many = design.walk.met().len();
    let mut starts = no_numbers(alloc, many)?;
    let mut numbers = no_numbers(alloc, many)?;
    let mut places = no_numbers(alloc, many)?;
    for i in 0..many {
        let cell = cell_place(design, i);
        match keep_places(&mut starts, &mut places, numbers.len(), cell) {
            Ok(()) => {}
            Err(_) => return Err(LinkEnd::OutOfMemory),
        }
        match join_instance(alloc, design, i, cell, &mut numbers) {
            Ok(()) => {}
            Err(end) => return Err(end),
        }
    }
    Ok(Joints {
        starts,
        numbers,
        places,
    })
}
