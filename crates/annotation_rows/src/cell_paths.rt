//! The paths through cells: from one pin to another, by one arc or by several.
ghost use Rattle.std.specs.Prelude.{◌≡◌, IfOk, OnOk};
ghost use Rattle.cell_models.specs.CornerCells.{AreCornerCells, arcs_at};
ghost use Rattle.annotation_rows.specs.CellPaths.{ArePaths, HavePaths, Numbers};
ghost use Rattle.annotation_rows.specs.RowLaws.{AreShaped};

use cell_models::{CellSet, CellSets};
use corner_set::{CornerSet, first_corner};
use edge_io::OutOfMemory;
use edge_io::lists::push;
use indexmap::IndexMap;
use std::alloc::Global;
use std::marker::Model;

/// The places of the pins that a path leads from and to.
#[derive(Clone, Copy, PartialEq, Eq, Hash)]
pub(crate) struct PinPair {
    pub(crate) from: usize,
    pub(crate) to: usize,
}

/// Of each arc of a cell the number of its path. Contracts see the list of them.
#[derive(Drop)]
pub(crate) struct ArcPaths {
    numbers: Vec<usize>,
}

impl Model for ArcPaths {
    ghost use Rattle.std.specs.Prelude.{ℕ, List};

    ghost Value = { List ℕ };

    ghost view = { λ paths. paths.numbers.items };
}

impl ArcPaths {
    /// The numbers, by the places of the arcs.
    pub(crate) fn as_slice(&self) -> &[usize]
        ensures { result.now ≡ self.now }
    {
        self.numbers.as_slice()
    }
}

// The number of the path between two pins: that of the first arc between them, which is this one where they have no number.
fn path_number(
    numbers: &mut IndexMap<PinPair, usize>,
    pins: PinPair,
    arc: usize,
) -> Result<usize, OutOfMemory>
    ensures { IfOk result (Numbers numbers.old.entries numbers.new.entries pins arc) }
{
    if let Some(number) = numbers.get(&pins) {
        return Ok(*number);
    }
    match numbers.insert(pins, arc) {
        Ok(_) => Ok(arc),
        Err(_) => Err(OutOfMemory),
    }
}

// Of each arc of a cell the number of its path: the least number of an arc between the same pins. Each arc is looked up once.
fn paths_of<C: CornerSet>(alloc: Global, cell: &CellSet<C>) -> Result<ArcPaths, OutOfMemory>
    ensures paths { IfOk result (λ paths. ArePaths (arcs_at cell.now 0) paths) }
    ensures whole { AreCornerCells C.COUNT cell.now }
{
    let mut numbers = IndexMap::new(alloc);
    let mut paths = Vec::with_capacity(alloc, cell.arc_count())?;
    for place in 0..cell.arc_count() {
        let arc = cell.arc(place, first_corner::<C>());
        let pins = PinPair {
            from: arc.from,
            to: arc.to,
        };
        push(&mut paths, path_number(&mut numbers, pins, place)?)?;
    }
    Ok(ArcPaths { numbers: paths })
}

/// Of each cell the paths of its arcs. Each cell has one shape at all corners.
#[tactic(auto, using(crate::proofs::ManyPaths::none_have, crate::proofs::ManyPaths::more_have, crate::proofs::ManyPaths::all_have, crate::proofs::ManyPaths::none_shaped, crate::proofs::ManyPaths::more_shaped, crate::proofs::ManyPaths::all_shaped))]
pub(crate) fn paths_of_all<C: CornerSet>(
    alloc: Global,
    cells: &CellSets<C>,
) -> Result<Vec<ArcPaths>, OutOfMemory>
    ensures paths { IfOk result (λ paths. HavePaths cells.now paths.items) }
    ensures shaped { OnOk result (AreShaped C.COUNT cells.now) }
{
    let mut paths = Vec::with_capacity(alloc, cells.len())?;
    for cell in 0..cells.len() {
        push(&mut paths, paths_of(alloc, cells.set(cell))?)?;
    }
    Ok(paths)
}
