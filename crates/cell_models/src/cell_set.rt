//! A cell at all corners.
ghost use Rattle.std.specs.Prelude.{◌≡◌, ◌<◌, length, slice_get, Some};
ghost use Rattle.cell_models.specs.Cells.{IsArcOf};
ghost use Rattle.cell_models.specs.CornerCells.{AreCornerCells, pins_at, arcs_at, pin_count_of, arc_count_of};

use crate::cell::{Arc, Cell, Pin};
use corner_set::CornerSet;
use std::marker::{Model, PhantomData};

/// The timing models of one cell, one at each corner. Contracts see the list of them, by the numbers of the corners: all have
/// one shape.
#[derive(Drop)]
pub struct CellSet<C: CornerSet> {
    cells: Vec<Cell>,
    corners: PhantomData<C>,
}

impl<C: CornerSet> Model for CellSet<C> {
    ghost use Rattle.std.specs.Prelude.{List};
    ghost use Rattle.cell_models.specs.Cells.{TimedCell};
    ghost use Rattle.cell_models.specs.CornerCells.{AreCornerCells};

    ghost Value = { List TimedCell };

    ghost view = { λ set. set.cells.items };

    ghost invariant = { λ set. AreCornerCells C.COUNT set.cells.items };
}

impl<C: CornerSet> CellSet<C> {
    /// The cell of these models.
    pub(crate) fn of(cells: Vec<Cell>) -> CellSet<C>
        requires { AreCornerCells C.COUNT cells.items }
        ensures { result ≡ cells.items }
    {
        CellSet {
            cells,
            corners: PhantomData,
        }
    }

    // The model at a corner.
    fn at_corner(&self, corner: C::Index) -> &Cell
        ensures cell { slice_get self.now (C.number_of corner) ≡ Some result.now }
        ensures whole { AreCornerCells C.COUNT self.now }
    {
        &self.cells[C::number(corner)]
    }

    // The same, with what is known of it.
    fn cell(&self, corner: C::Index) -> &Cell
        ensures pins { result.now.pins ≡ pins_at self.now (C.number_of corner) }
        ensures arcs { result.now.arcs ≡ arcs_at self.now (C.number_of corner) }
        ensures pin_count { length result.now.pins ≡ pin_count_of self.now }
        ensures arc_count { length result.now.arcs ≡ arc_count_of self.now }
    {
        self.at_corner(corner)
    }

    /// How many pins the cell has, the same at each corner.
    pub fn pin_count(&self) -> usize
        ensures count { result ≡ pin_count_of self.now }
        ensures whole { AreCornerCells C.COUNT self.now }
    {
        self.cells[0].pins().len()
    }

    /// The pin at a place, as it is at a corner.
    pub fn pin(&self, i: usize, corner: C::Index) -> &Pin
        requires { i < pin_count_of self.now }
        ensures { slice_get (pins_at self.now (C.number_of corner)) i ≡ Some result.now }
    {
        let pins = self.cell(corner).pins();
        &pins[i]
    }

    /// How many arcs the cell has, the same at each corner.
    pub fn arc_count(&self) -> usize
        ensures count { result ≡ arc_count_of self.now }
        ensures whole { AreCornerCells C.COUNT self.now }
    {
        self.cells[0].arcs().len()
    }

    /// The arc at a place, as it is at a corner. It leads from the place of an input pin to that of an output pin.
    pub fn arc(&self, i: usize, corner: C::Index) -> &Arc
        requires { i < arc_count_of self.now }
        ensures arc { slice_get (arcs_at self.now (C.number_of corner)) i ≡ Some result.now }
        ensures joins { IsArcOf (pins_at self.now (C.number_of corner)) result.now }
        ensures from { result.now.from < pin_count_of self.now }
        ensures to { result.now.to < pin_count_of self.now }
    {
        let arcs = self.cell(corner).arcs();
        &arcs[i]
    }
}
