//! The flat netlist of a design, made from its modules and its cells.
ghost use Rattle.std.specs.Prelude.{◌≡◌, ◌<◌, length, All, Contains, IfOk, IfErr};
ghost use Rattle.cell_models.specs.NamedSets.{set_names};
ghost use Rattle.hierarchy.specs.Uses.{IsWalkable, cells_used};
ghost use Rattle.netlist_link.specs.LinkEnds.{IsLinkEnd};
ghost use Rattle.netlist_link.specs.Designs.{IsSound, HasDesign, OverCells};
ghost use Rattle.netlist_link.specs.PathTables.{top_of, ArePaths};
ghost use Rattle.netlist_link.specs.DesignTables.{IsNetlistOver, IsEndOver, IsLinkedDesign};
ghost use Rattle.netlist_link.specs.FlatDesigns.{HasCells, IsFlatDesign, IsFlatEnd};
ghost use Rattle.netlist_link.specs.Linked.{IsLinked};

use crate::assembling::assemble;
use crate::checking::{Design, join_all};
use crate::design_tables::tables_of;
use crate::ends::LinkEnd;
use crate::netlist::Netlist;
use cell_models::CellSets;
use corner_set::{CornerSet, first_corner};
use edge_io::Text;
use std::alloc::Global;
use verilog_netlist::Modules;

// The netlist of a design, or why it has none.
#[tactic(auto, using(crate::proofs::LinkSteps::first_end))]
fn link_design(alloc: Global, design: &Design<'_>) -> Result<Netlist, LinkEnd>
    requires sound { IsSound design.now }
    requires design { HasDesign design.now }
    requires paths { ArePaths design.now.modules.now (top_of design.now.walk.now) design.now.paths.now }
    requires top { top_of design.now.walk.now < length design.now.modules.now }
    ensures linked { IfOk result (λ netlist. OverCells design.now (IsNetlistOver design.now netlist)) }
    ensures refused { IfErr result (λ end. OverCells design.now (IsEndOver design.now end)) }
{
    match join_all(alloc, design) {
        Ok(joints) => assemble(alloc, design, &joints),
        Err(end) => Err(end),
    }
}

// The flat netlist of a design, at the first corner, whose pins are those of every corner.
#[tactic(auto, using(crate::specs::LinkEnds::no_memory))]
fn link<C: CornerSet>(
    alloc: Global,
    modules: &Modules<'_>,
    top: usize,
    cells: &CellSets<C>,
    corner: C::Index,
) -> Result<Netlist, LinkEnd>
    requires within { top < length modules.now }
    requires walkable { IsWalkable modules.now top }
    requires known { All (λ cell. Contains (set_names cells.now) cell) (cells_used modules.now top) }
    requires corner { C.number_of corner ≡ 0 }
    ensures linked { IfOk result (IsLinkedDesign modules.now top cells.now) }
    ensures refused { IfErr result (IsLinkEnd modules.now top cells.now) }
{
    let tables = tables_of(alloc, modules, top, cells, corner)?;
    let design = Design {
        modules,
        walk: &tables.walk,
        paths: &tables.paths,
        cells: &tables.cells,
        cell_places: tables.places.as_slice(),
        ports: tables.ports.as_slice(),
        pins: tables.pins.as_slice(),
    };
    link_design(alloc, &design)
}

/// The flat netlist of the design of a top module, over the cells that it uses.
pub fn flatten_and_link<C: CornerSet>(
    alloc: Global,
    modules: &Modules<'_>,
    top: &Text,
    cells: &CellSets<C>,
) -> Result<Netlist, LinkEnd>
    requires cells { HasCells modules.now top.now cells.now }
    ensures linked { IfOk result (IsFlatDesign modules.now top.now cells.now) }
    ensures refused { IfErr result (IsFlatEnd modules.now top.now cells.now) }
    ensures with_cells { IfOk result (IsLinked cells.now) }
{
    modules.sound();
    match modules.find(top.bytes()) {
        Some(top) => link(alloc, modules, top, cells, first_corner::<C>()),
        None => unreachable!(),
    }
}
