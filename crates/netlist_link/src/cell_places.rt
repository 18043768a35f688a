//! The places of cells, by the names of what instances are of.
ghost use Rattle.std.specs.Prelude.{◌≡◌, ℕ, ◌<◌, List, length, Contains, IfOk};
ghost use Rattle.netlist_link.specs.CellPlaces.{IsPlaceOf, AreCellPlaces};

use edge_io::OutOfMemory;
use edge_io::lists::push;
use name_table::{NameId, Names};
use std::alloc::Global;

// The place of the cell of this name; 0 where no cell has it.
fn place_of_cell(cell_names: &Names, name: &[u8]) -> u32
    ensures { Contains cell_names.now name.now → IsPlaceOf cell_names.now name.now result }
{
    match cell_names.find(name) {
        Some(id) => id.0,
        None => 0,
    }
}

/// The place of the cell of each of these names. It takes one look-up for each.
pub(crate) fn cell_places(
    alloc: Global,
    cell_names: &Names,
    names: &Names,
) -> Result<Vec<u32>, OutOfMemory>
    ensures { IfOk result (λ places. AreCellPlaces cell_names.now names.now places.items) }
{
    let mut places = Vec::new(alloc);
    for n in 0..names.len() {
        push(
            &mut places,
            place_of_cell(cell_names, names.text(NameId(n as u32))),
        )?;
    }
    Ok(places)
}
