//! The parts of a flat netlist, put together.
ghost use Rattle.std.specs.Prelude.{◌<◌, ◌^◌, length, IfOk, IfErr};
ghost use Rattle.netlist_link.specs.Designs.{IsSound, HasDesign, OverCells, HoldsJoints, walk_of};
ghost use Rattle.netlist_link.specs.DesignTables.{IsNetlistOver, IsEndOver};
ghost use Rattle.netlist_link.specs.FlatBitTables.{IsFaultless};
ghost use Rattle.netlist_link.specs.NetlistParts.{AreParts};
ghost use Rattle.netlist_link.specs.PathTables.{top_of, ArePaths};

use crate::checking::{Design, Joints};
use crate::ends::LinkEnd;
use crate::flat_bits::flat_bits;
use crate::grouping::by_net;
use crate::instances::{Instances, flat_instances};
use crate::net_ends::{drivers_of, net_ends};
use crate::net_naming::net_names;
use crate::netlist::Netlist;
use crate::ports::{Ports, top_ports};
use edge_io::OutOfMemory;
use edge_io::lists::to_u32;
use std::alloc::Global;
use text_table::FlatTexts;

/// The nets, the instances and the ports of a flat netlist, before the nets are joined to their ends.
#[derive(Drop)]
pub(crate) struct NetlistParts {
    pub net_texts: FlatTexts,
    pub instances: Instances,
    pub ports: Ports,
}

// The parts of the netlist of a design, or the first clash of names.
#[tactic(auto, using(crate::proofs::PartsOfNetlist::no_room))]
fn parts_of(alloc: Global, design: &Design<'_>, joints: &Joints) -> Result<NetlistParts, LinkEnd>
    requires sound { IsSound design.now }
    requires design { HasDesign design.now }
    requires paths { ArePaths design.now.modules.now (top_of design.now.walk.now) design.now.paths.now }
    requires top { top_of design.now.walk.now < length design.now.modules.now }
    requires joints { OverCells design.now (HoldsJoints design.now (length (walk_of design.now))
        joints.now.starts.items joints.now.numbers.items joints.now.places.items) }
    ensures parts { IfOk result (λ parts. OverCells design.now (AreParts design.now parts)) }
    ensures refused { IfErr result (λ end. OverCells design.now (IsEndOver design.now end)) }
{
    let bits = flat_bits(alloc, design)?;
    let net_texts = match net_names(alloc, design, &bits) {
        Ok(net_texts) => net_texts,
        Err(end) => return Err(end),
    };
    let instances = match flat_instances(alloc, design, joints, &bits) {
        Ok(instances) => instances,
        Err(end) => return Err(end),
    };
    let ports = top_ports(alloc, design, &bits)?;
    Ok(NetlistParts {
        net_texts,
        instances,
        ports,
    })
}

// More than 2^32 - 1 nets or instances are a want of memory.
fn check_counts(parts: &NetlistParts) -> Result<(), OutOfMemory>
    ensures nets { IfOk result (λ _. length parts.now.net_texts < 2 ^ 32) }
    ensures instances { IfOk result (λ _. length parts.now.instances.rows.items < 2 ^ 32) }
{
    to_u32(parts.net_texts.len())?;
    to_u32(parts.instances.rows.len())?;
    Ok(())
}

// The parts with each net joined to its ends, or the first net that two ends drive.
#[tactic(auto, using(crate::proofs::PartsOfNetlist::no_room))]
fn join_nets(alloc: Global, design: &Design<'_>, parts: NetlistParts) -> Result<Netlist, LinkEnd>
    requires design { HasDesign design.now }
    requires faultless { IsFaultless design.now }
    requires parts { OverCells design.now (AreParts design.now parts) }
    ensures linked { IfOk result (λ netlist. OverCells design.now (IsNetlistOver design.now netlist)) }
    ensures refused { IfErr result (λ end. OverCells design.now (IsEndOver design.now end)) }
{
    let ends = net_ends(alloc, design, &parts.ports, &parts.instances)?;
    let drivers = match drivers_of(alloc, &parts.net_texts, ends.driving.as_slice()) {
        Ok(drivers) => drivers,
        Err(end) => return Err(end),
    };
    let sinks = by_net(alloc, parts.net_texts.len(), ends.driven.as_slice())?;
    check_counts(&parts)?;
    Ok(Netlist {
        instances: parts.instances,
        ports: parts.ports,
        net_texts: parts.net_texts,
        drivers,
        sinks,
    })
}

/// The netlist of a design whose connections can be made.
pub(crate) fn assemble(
    alloc: Global,
    design: &Design<'_>,
    joints: &Joints,
) -> Result<Netlist, LinkEnd>
    requires sound { IsSound design.now }
    requires design { HasDesign design.now }
    requires paths { ArePaths design.now.modules.now (top_of design.now.walk.now) design.now.paths.now }
    requires top { top_of design.now.walk.now < length design.now.modules.now }
    requires joints { OverCells design.now (HoldsJoints design.now (length (walk_of design.now))
        joints.now.starts.items joints.now.numbers.items joints.now.places.items) }
    ensures linked { IfOk result (λ netlist. OverCells design.now (IsNetlistOver design.now netlist)) }
    ensures refused { IfErr result (λ end. OverCells design.now (IsEndOver design.now end)) }
{
    match parts_of(alloc, design, joints) {
        Ok(parts) => join_nets(alloc, design, parts),
        Err(end) => Err(end),
    }
}
