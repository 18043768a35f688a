//! The instances of cells in a flat design, along the walk, and the nets of their pins.
ghost use Rattle.std.specs.Prelude.{◌≡◌, ◌∷◌, ◌++◌, [], ◌<◌, length, replicate, slice_index, slice_set, None, IfOk, IfErr, OnOk};
ghost use Rattle.verilog_netlist.specs.NetModules.{bits_in};
ghost use Rattle.netlist_link.specs.FlatNames.{instance_text, instance_sdf};
ghost use Rattle.netlist_link.specs.FlatPins.{pins_of};
ghost use Rattle.netlist_link.specs.Links.{AreInstances};
ghost use Rattle.netlist_link.specs.Clashes.{AreNamed, IsClash, texts_of_instances};
ghost use Rattle.netlist_link.specs.PathTables.{IsWalk, top_of, ArePaths};
ghost use Rattle.netlist_link.specs.Designs.{IsSound, HasDesign, OverCells, HoldsJoints, IsOfCell, walk_of, met_of, connections_of, number_here};
ghost use Rattle.netlist_link.specs.FlatBitTables.{AreFlatBits};
ghost use Rattle.netlist_link.specs.InstanceTables.{instances_in, AreInstanceTables};
ghost use Rattle.netlist_link.specs.InstanceRows.{connection_of, IsFirstNet, AreNetsOf, IsRowMore, IsInstanceMore};

use crate::checking::{Design, Joints, place_of};
use crate::ends::LinkEnd;
use crate::flat_bits::FlatBits;
use crate::instance_names::InstanceNames;
use crate::name_clashes::check_instances;
use edge_io::OutOfMemory;
use edge_io::lists::{push, to_u32};
use std::alloc::Global;

/// An instance of a cell: the place of its cell, that of its first pin, and how many pins it has.
#[derive(Clone, Copy)]
pub(crate) struct InstanceRow {
    pub cell: u32,
    pub first_pin: u32,
    pub pin_count: u32,
}

/// The instances of cells, and the nets of their pins.
#[derive(Drop)]
pub(crate) struct Instances {
    pub names: InstanceNames,
    pub rows: Vec<InstanceRow>,
    pub pin_nets: Vec<Option<u32>>,
}

// The number of the port or the pin to which a connection of an instance leads.
fn joint_number(design: &Design<'_>, joints: &Joints, i: usize, c: usize) -> usize
    requires design { HasDesign design.now }
    requires joints { OverCells design.now (HoldsJoints design.now (length (walk_of design.now))
        joints.now.starts.items joints.now.numbers.items joints.now.places.items) }
    requires within { i < length (walk_of design.now) }
    requires connection { c < length (connections_of design.now i) }
    ensures { OverCells design.now (λ cells. result ≡ number_here cells design.now i (connection_of design.now i c).port) }
{
    joints.numbers[joints.starts[i] as usize + c] as usize
}

// The net of the first bit that a connection of an instance joins; nothing where it joins none.
fn first_net(design: &Design<'_>, bits: &FlatBits, i: usize, c: usize) -> Option<Option<u32>>
    requires walk { IsWalk design.now.modules.now design.now.walk.now }
    requires bits { AreFlatBits design.now bits.now }
    requires within { i < length design.now.walk.now.met }
    requires connection { c < length (connections_of design.now i) }
    ensures { IsFirstNet design.now (met_of design.now i).path (bits_in (connection_of design.now i c).runs) result }
{
    design.modules.sound();
    let met = design.walk.met();
    let (m, k) = place_of(design, i);
    let bit = design.modules.get_bit(m, k, c, 0)?;
    Some(bits.net(met[i].visit as usize, m, bit))
}

// Sets the net of a pin.
fn set_net(nets: &mut [Option<u32>], pin: usize, net: Option<u32>)
    requires { pin < length nets.old }
    ensures { nets.new ≡ slice_set nets.old pin net }
{
    nets[pin] = net;
}

// Sets the nets of the pins of an instance of a cell, none of which is on a net so far.
fn set_pin_nets(
    design: &Design<'_>,
    joints: &Joints,
    bits: &FlatBits,
    i: usize,
    nets: &mut [Option<u32>],
)
    requires sound { IsSound design.now }
    requires design { HasDesign design.now }
    requires bits { AreFlatBits design.now bits.now }
    requires joints { OverCells design.now (HoldsJoints design.now (length (walk_of design.now))
        joints.now.starts.items joints.now.numbers.items joints.now.places.items) }
    requires within { i < length design.now.walk.now.met }
    requires cell { IsOfCell design.now i }
    requires none { OverCells design.now (λ cells.
        nets.old ≡ replicate (length (pins_of cells (slice_index joints.now.places.items i))) None) }
    ensures { OverCells design.now (AreNetsOf design.now i (slice_index joints.now.places.items i) nets.new) }
{
    design.modules.sound();
    let (m, k) = place_of(design, i);
    for c in 0..design.modules.connection_count(m, k) {
        if let Some(net) = first_net(design, bits, i, c) {
            let pin = joint_number(design, joints, i, c);
            set_net(nets, pin, net);
        }
    }
}

// Puts the row of one instance of a cell more at the end, and the nets of its pins.
fn add_row(
    design: &Design<'_>,
    joints: &Joints,
    bits: &FlatBits,
    i: usize,
    instances: &mut Instances,
) -> Result<(), OutOfMemory>
    requires sound { IsSound design.now }
    requires design { HasDesign design.now }
    requires bits { AreFlatBits design.now bits.now }
    requires joints { OverCells design.now (HoldsJoints design.now (length (walk_of design.now))
        joints.now.starts.items joints.now.numbers.items joints.now.places.items) }
    requires within { i < length design.now.walk.now.met }
    requires cell { IsOfCell design.now i }
    ensures row { OnOk result (IsRowMore design.now i (slice_index joints.now.places.items i)
        instances.old.rows.items instances.new.rows.items instances.old.pin_nets.items instances.new.pin_nets.items) }
    ensures names { instances.new.names ≡ instances.old.names }
{
    let cell = joints.places[i];
    let many = design.pins[cell as usize].directions.len();
    let first = instances.pin_nets.len();
    let row = InstanceRow {
        cell,
        first_pin: to_u32(first)?,
        pin_count: to_u32(many)?,
    };
    push(&mut instances.rows, row)?;
    instances.pin_nets.resize(first + many, None)?;
    let (_, nets) = instances.pin_nets.as_mut_slice().split_at_mut(first);
    set_pin_nets(design, joints, bits, i, nets);
    Ok(())
}

// Puts the path of an instance that is met at the ends, as text and as SDF spells it.
fn add_names(
    alloc: Global,
    design: &Design<'_>,
    i: usize,
    names: &mut InstanceNames,
) -> Result<(), OutOfMemory>
    requires walk { IsWalk design.now.modules.now design.now.walk.now }
    requires paths { ArePaths design.now.modules.now (top_of design.now.walk.now) design.now.paths.now }
    requires within { i < length design.now.walk.now.met }
    ensures texts { OnOk result (names.new.texts
        ≡ names.old.texts ++ instance_text design.now.modules.now (top_of design.now.walk.now) (met_of design.now i) ∷ []) }
    ensures spellings { OnOk result (names.new.spellings
        ≡ names.old.spellings ++ instance_sdf design.now.modules.now (top_of design.now.walk.now) (met_of design.now i) ∷ []) }
{
    let (m, k) = place_of(design, i);
    let met = design.walk.met();
    let visit = met[i].visit as usize;
    let name = design.modules.instance_name(m, k);
    let path = design.paths.text(visit);
    let spelled_path = design.paths.spelling(visit);
    names.push(alloc, path, spelled_path, name)
}

// Puts one instance of a cell more at the end.
fn add_instance(
    alloc: Global,
    design: &Design<'_>,
    joints: &Joints,
    bits: &FlatBits,
    i: usize,
    instances: &mut Instances,
) -> Result<(), OutOfMemory>
    requires sound { IsSound design.now }
    requires design { HasDesign design.now }
    requires paths { ArePaths design.now.modules.now (top_of design.now.walk.now) design.now.paths.now }
    requires bits { AreFlatBits design.now bits.now }
    requires joints { OverCells design.now (HoldsJoints design.now (length (walk_of design.now))
        joints.now.starts.items joints.now.numbers.items joints.now.places.items) }
    requires within { i < length design.now.walk.now.met }
    requires cell { IsOfCell design.now i }
    ensures { OnOk result (IsInstanceMore design.now i (slice_index joints.now.places.items i) instances.old instances.new) }
{
    add_row(design, joints, bits, i, instances)?;
    add_names(alloc, design, i, &mut instances.names)
}

// No instance yet, with room for so many, and for so many pins.
fn no_instances(alloc: Global, many: usize, pins: usize) -> Result<Instances, OutOfMemory>
    ensures texts { IfOk result (λ instances. instances.names.texts ≡ []) }
    ensures spellings { IfOk result (λ instances. instances.names.spellings ≡ []) }
    ensures rows { IfOk result (λ instances. instances.rows.items ≡ []) }
{
    Ok(Instances {
        names: InstanceNames::with_room(alloc, many)?,
        rows: Vec::with_capacity(alloc, many)?,
        pin_nets: Vec::with_capacity(alloc, pins)?,
    })
}

// The instances of cells along the walk.
fn all_instances(
    alloc: Global,
    design: &Design<'_>,
    joints: &Joints,
    bits: &FlatBits,
) -> Result<Instances, OutOfMemory>
    requires sound { IsSound design.now }
    requires design { HasDesign design.now }
    requires paths { ArePaths design.now.modules.now (top_of design.now.walk.now) design.now.paths.now }
    requires bits { AreFlatBits design.now bits.now }
    requires joints { OverCells design.now (HoldsJoints design.now (length (walk_of design.now))
        joints.now.starts.items joints.now.numbers.items joints.now.places.items) }
    ensures instances { IfOk result (λ instances. OverCells design.now
        (λ cells. AreInstances design.now.modules.now (top_of design.now.walk.now) cells (instances_in instances))) }
    ensures tables { IfOk result AreInstanceTables }
    ensures texts { IfOk result (λ instances. instances.names.texts ≡ texts_of_instances design.now) }
{
    let many = design.walk.met().len();
    let mut instances = no_instances(alloc, many, joints.numbers.len())?;
    for i in 0..many {
        if design.walk.met()[i].lower.is_none() {
            add_instance(alloc, design, joints, bits, i, &mut instances)?;
        }
    }
    Ok(instances)
}

/// The instances of cells along the walk, or the first name that an earlier instance has.
#[tactic(auto, using(crate::specs::Clashes::no_room_is))]
pub(crate) fn flat_instances(
    alloc: Global,
    design: &Design<'_>,
    joints: &Joints,
    bits: &FlatBits,
) -> Result<Instances, LinkEnd>
    requires sound { IsSound design.now }
    requires design { HasDesign design.now }
    requires paths { ArePaths design.now.modules.now (top_of design.now.walk.now) design.now.paths.now }
    requires top { top_of design.now.walk.now < length design.now.modules.now }
    requires bits { AreFlatBits design.now bits.now }
    requires joints { OverCells design.now (HoldsJoints design.now (length (walk_of design.now))
        joints.now.starts.items joints.now.numbers.items joints.now.places.items) }
    ensures instances { IfOk result (λ instances. OverCells design.now
        (λ cells. AreInstances design.now.modules.now (top_of design.now.walk.now) cells (instances_in instances))) }
    ensures tables { IfOk result AreInstanceTables }
    ensures named { IfOk result (λ instances. AreNamed (texts_of_instances design.now) instances.names.texts) }
    ensures refused { IfErr result (IsClash (texts_of_instances design.now)) }
{
    let instances = all_instances(alloc, design, joints, bits)?;
    match check_instances(alloc, design, instances.names.texts()) {
        Ok(()) => Ok(instances),
        Err(end) => Err(end),
    }
}
