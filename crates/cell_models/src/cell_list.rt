//! Timing models in order.
ghost use Rattle.std.specs.Prelude.{◌≡◌, [], ◌∷◌, ◌++◌, All, OnOk, OnErr};
ghost use Rattle.cell_models.specs.Cells.{IsCell};

use crate::cell::Cell;
use edge_io::OutOfMemory;
use std::alloc::Global;
use std::marker::Model;

/// The timing models of a cell, one for each corner in order of their numbers. Contracts see the list of them.
#[derive(Drop)]
pub struct CellList {
    cells: Vec<Cell>,
}

impl Model for CellList {
    ghost use Rattle.std.specs.Prelude.{List, All};
    ghost use Rattle.cell_models.specs.Cells.{TimedCell, IsCell};

    ghost Value = { List TimedCell };

    ghost view = { λ list. list.cells.items };

    ghost invariant = { λ list. All IsCell list.cells.items };
}

impl CellList {
    /// The empty list. It takes no memory.
    pub fn new(alloc: Global) -> CellList
        ensures { result ≡ [] }
    {
        CellList {
            cells: Vec::new(alloc),
        }
    }

    /// Puts a model at the end. Where memory is short it is dropped.
    pub fn push(&mut self, cell: Cell) -> Result<(), OutOfMemory>
        ensures ok { OnOk result (self.new ≡ self.old ++ cell ∷ []) }
        ensures err { OnErr result (self.new ≡ self.old) }
    {
        // what it keeps
        let _ = cell.pins();
        put(&mut self.cells, cell)?;
        Ok(())
    }

    /// The models, without a copy.
    pub(crate) fn into_cells(self) -> Vec<Cell>
        ensures cells { result.items ≡ self }
        ensures whole { All IsCell self }
    {
        self.cells
    }
}

fn put(cells: &mut Vec<Cell>, cell: Cell) -> Result<(), OutOfMemory>
    ensures ok { OnOk result (cells.new.items ≡ cells.old.items ++ cell ∷ []) }
    ensures err { OnErr result (cells.new.items ≡ cells.old.items) }
{
    match cells.push(cell) {
        Ok(()) => Ok(()),
        Err(_) => Err(OutOfMemory),
    }
}
