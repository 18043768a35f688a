//! What is looked up while a design is linked: its walk with the paths, the cells of its instances, its ports, and the
//! pins of its cells.
ghost use Rattle.std.specs.Prelude.{◌≡◌, ◌<◌, length, IfOk};
ghost use Rattle.hierarchy.specs.Uses.{IsWalkable};
ghost use Rattle.netlist_link.specs.Designs.{AreAllPorts};
ghost use Rattle.netlist_link.specs.DesignTables.{AreTablesOf};

use crate::cell_pins::{CellPins, all_pins};
use crate::cell_places::cell_places;
use crate::flat_names::{Paths, paths_of_walk};
use crate::port_numbers::{PortNumbers, ports_of_module};
use cell_models::CellSets;
use corner_set::CornerSet;
use edge_io::OutOfMemory;
use edge_io::lists::push;
use hierarchy::{InstanceCells, Walk, walk_modules};
use std::alloc::Global;
use verilog_netlist::Modules;

/// The tables of a design.
#[derive(Drop)]
pub(crate) struct DesignTables<'a> {
    pub walk: Walk,
    pub paths: Paths,
    pub cells: InstanceCells,
    pub places: Vec<u32>,
    pub ports: Vec<PortNumbers<'a>>,
    pub pins: Vec<CellPins<'a>>,
}

// The numbers of the ports of all modules.
fn all_ports<'a>(
    alloc: Global,
    modules: &'a Modules<'a>,
) -> Result<Vec<PortNumbers<'a>>, OutOfMemory>
    ensures { IfOk result (λ ports. AreAllPorts modules.now ports.items) }
{
    let mut ports = Vec::new(alloc);
    for m in 0..modules.module_count() {
        push(&mut ports, ports_of_module(alloc, modules, m)?)?;
    }
    Ok(ports)
}

/// The tables of the design of a top module over its cells, at the first corner, whose pins are those of every corner.
pub(crate) fn tables_of<'a, C: CornerSet>(
    alloc: Global,
    modules: &'a Modules<'a>,
    top: usize,
    cells: &'a CellSets<C>,
    corner: C::Index,
) -> Result<DesignTables<'a>, OutOfMemory>
    requires within { top < length modules.now }
    requires walkable { IsWalkable modules.now top }
    requires corner { C.number_of corner ≡ 0 }
    ensures { IfOk result (AreTablesOf modules.now top cells.now) }
{
    let instance_cells = InstanceCells::of(alloc, modules)?;
    let places = cell_places(alloc, cells.names(), instance_cells.names())?;
    let walk = walk_modules(alloc, modules, &instance_cells, top)?;
    let paths = paths_of_walk(alloc, modules, &walk)?;
    let ports = all_ports(alloc, modules)?;
    let pins = all_pins(alloc, cells, corner)?;
    Ok(DesignTables {
        walk,
        paths,
        cells: instance_cells,
        places,
        ports,
        pins,
    })
}
