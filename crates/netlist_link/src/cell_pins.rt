//! The pins of cells: their numbers by their names, and their directions, which are the same at each corner.
ghost use Rattle.std.specs.Prelude.{◌≡◌, ◌<◌, length, map, slice_get, Some, IfOk};
ghost use Rattle.cell_models.specs.CornerCells.{pins_at, AreCornerCells};
ghost use Rattle.netlist_link.specs.JointTables.{AreCellPins, AreAllPins, pin_names};
ghost use Rattle.name_table.specs.Names.{AreDistinct};
ghost use Rattle.netlist_link.specs.Designs.{HaveDistinctPins};

use crate::port_numbers::{PortNumbers, pins_of_cell};
use cell_models::{CellSet, CellSets, Direction};
use corner_set::CornerSet;
use edge_io::OutOfMemory;
use edge_io::lists::push;
use std::alloc::Global;

/// The pins of a cell.
#[derive(Drop)]
pub(crate) struct CellPins<'a> {
    pub numbers: PortNumbers<'a>,
    pub directions: Vec<Direction>,
}

// The directions of the pins of a cell.
fn directions_of<C: CornerSet>(
    alloc: Global,
    cell: &CellSet<C>,
    corner: C::Index,
) -> Result<Vec<Direction>, OutOfMemory>
    requires { C.number_of corner ≡ 0 }
    ensures are { IfOk result (λ directions. directions.items ≡ map (λ pin. pin.direction) (pins_at cell.now 0)) }
    ensures whole { IfOk result (λ _. AreCornerCells C.COUNT cell.now) }
{
    let mut directions = Vec::new(alloc);
    for j in 0..cell.pin_count() {
        push(&mut directions, cell.pin(j, corner).direction)?;
    }
    Ok(directions)
}

// The pins of a cell.
fn pins_of<'a, C: CornerSet>(
    alloc: Global,
    cell: &'a CellSet<C>,
    corner: C::Index,
) -> Result<CellPins<'a>, OutOfMemory>
    requires { C.number_of corner ≡ 0 }
    ensures are { IfOk result (AreCellPins (pins_at cell.now 0)) }
    ensures distinct { IfOk result (λ _. AreDistinct (pin_names (pins_at cell.now 0))) }
{
    let numbers = pins_of_cell(alloc, cell, corner)?;
    let directions = directions_of(alloc, cell, corner)?;
    Ok(CellPins {
        numbers,
        directions,
    })
}

/// The pins of all cells, by the places of the cells.
pub(crate) fn all_pins<'a, C: CornerSet>(
    alloc: Global,
    cells: &'a CellSets<C>,
    corner: C::Index,
) -> Result<Vec<CellPins<'a>>, OutOfMemory>
    requires { C.number_of corner ≡ 0 }
    ensures are { IfOk result (λ pins. AreAllPins cells.now (length cells.now) pins.items) }
    ensures distinct { IfOk result (λ _. HaveDistinctPins cells.now) }
{
    let mut pins = Vec::new(alloc);
    for c in 0..cells.len() {
        push(&mut pins, pins_of(alloc, cells.set(c), corner)?)?;
    }
    Ok(pins)
}
