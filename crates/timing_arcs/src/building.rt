//! The timing model of a cell of a library.
ghost use Rattle.std.specs.Prelude.{IfOk, IfErr, flat_map};
ghost use Rattle.liberty_groups.specs.Tables.{tree_of, group_at, IsGroup};
ghost use Rattle.timing_arcs.specs.DelayGroups.{delays_in};
ghost use Rattle.timing_arcs.specs.LibraryBasis.{IsBasis};
ghost use Rattle.timing_arcs.specs.CellReading.{entries_of, library_of};
ghost use Rattle.timing_arcs.specs.BuiltParts.{AreArcsOf, IsModelOf};
ghost use Rattle.timing_arcs.specs.CellFaults.{delay_questions, cell_questions, IsRefusal};

use crate::cell_reading::CellReading;
use crate::copied_arcs::add_next_arcs;
use crate::library_basis::LibraryBasis;
use crate::pins::{pin_table, read_pins};
use cell_models::{Arc, Cell};
use liberty_groups::{GroupId, GroupTree};
use liberty_tables::CellFault;
use std::alloc::Global;

// The arcs of a cell, by output pin.
fn read_arcs(alloc: Global, cell: &CellReading<'_>) -> Result<Vec<Arc>, CellFault>
    ensures ok { IfOk result (λ arcs. AreArcsOf (library_of cell.now) cell.now.names
        (entries_of cell.now) arcs.items) }
    ensures refused { IfErr result
        (IsRefusal (library_of cell.now)
        (flat_map (delay_questions (entries_of cell.now))
        (flat_map delays_in (entries_of cell.now)))) }
{
    let mut arcs = Vec::new(alloc);
    let mut start = 0;
    for to in 0..cell.pin_count() {
        let next = arcs.len();
        match add_next_arcs(alloc, cell, to, start, &mut arcs) {
            Ok(_) => {}
            Err(fault) => return Err(fault),
        }
        start = next;
    }
    Ok(arcs)
}

/// The timing model of the cell of a group.
#[tactic(auto, using(crate::specs::CellFaults::no_memory))]
pub(crate) fn build_group(
    alloc: Global,
    tree: &GroupTree,
    basis: &LibraryBasis,
    group: GroupId,
) -> Result<Cell, CellFault>
    requires basis { IsBasis tree.now basis.now }
    requires group { IsGroup tree.now group.0 }
    ensures ok { IfOk result (IsModelOf (tree_of tree.now) (group_at tree.now group.0)) }
    ensures refused { IfErr result (IsRefusal (tree_of tree.now) (cell_questions (group_at tree.now group.0))) }
{
    let table = match pin_table(alloc, tree, group) {
        Ok(table) => table,
        Err(_) => return Err(CellFault::OutOfMemory),
    };
    let pins = match read_pins(alloc, tree, &basis.units.load, basis.default_cap, &table) {
        Ok(pins) => pins,
        Err(fault) => return Err(fault),
    };
    // The look-up shows that no two names are one; what is looked up does not matter.
    let _place = table.names.find(&[]);
    let cell = CellReading::new(tree, basis, &table, pins.as_slice());
    match read_arcs(alloc, &cell) {
        Ok(arcs) => Ok(Cell::of(pins, arcs)),
        Err(fault) => Err(fault),
    }
}
