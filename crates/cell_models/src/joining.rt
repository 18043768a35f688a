//! The timing models of the corners, as one cell.
ghost use Rattle.std.specs.Prelude.{◌≡◌, ◌↔◌, ◌+◌, ◌<◌, ◌^◌, length, IsOk, IfOk, IfErr, OnSome, IfSome, IfNone};
ghost use Rattle.cell_models.specs.CornerCells.{shape_at, AreOneShape};
ghost use Rattle.cell_models.specs.Joining.{DifferFirst, DifferAt, IsJoinEnd, IsShapeFault, OneShapeFault};

use crate::cell::Cell;
use crate::cell_list::CellList;
use crate::cell_set::CellSet;
use crate::shape::{ShapeFault, entry_at, first_difference};
use corner_set::CornerSet;
use edge_io::OutOfMemory;
use std::alloc::Global;

/// Why the models of the corners are not those of one cell.
#[derive(Drop)]
pub enum JoinEnd {
    /// The shape at a corner is another than at the first corner.
    Shape(ShapeFault),

    /// There was no memory for the entries that differ.
    OutOfMemory,
}

// A corner whose shape is another, and the first place, from 0, at which it differs.
#[derive(Clone, Copy)]
struct Unlike {
    corner: usize,
    place: usize,
}

// The first place, from 0, at which the shape at a corner is another than at the first corner.
fn unlike_at(cells: &[Cell], corner: usize) -> Option<usize>
    requires { corner < length cells.now }
    ensures some { IfSome result (DifferFirst (shape_at cells.now 0) (shape_at cells.now corner)) }
    ensures counted { IfSome result (λ place. place + 1 < 2 ^ 64) }
    ensures none { IfNone result (shape_at cells.now corner ≡ shape_at cells.now 0) }
{
    first_difference(&cells[0], &cells[corner])
}

fn first_unlike(cells: &[Cell]) -> Option<Unlike>
    requires { 0 < length cells.now }
    ensures some { IfSome result (λ unlike. DifferAt cells.now unlike.corner unlike.place) }
    ensures counted { IfSome result (λ unlike. unlike.place + 1 < 2 ^ 64) }
    ensures unlike { OnSome result (¬ AreOneShape cells.now) }
    ensures none { IfNone result (AreOneShape cells.now) }
{
    for corner in 1..cells.len() {
        if let Some(place) = unlike_at(cells, corner) {
            return Some(Unlike { corner, place });
        }
    }
    None
}

fn fault_of(alloc: Global, cells: &[Cell], unlike: Unlike) -> Result<ShapeFault, OutOfMemory>
    requires differ { DifferAt cells.now unlike.corner unlike.place }
    requires counted { unlike.place + 1 < 2 ^ 64 }
    ensures { IfOk result (IsShapeFault cells.now) }
{
    let first = entry_at(alloc, &cells[0], unlike.place)?;
    let other = entry_at(alloc, &cells[unlike.corner], unlike.place)?;
    Ok(ShapeFault {
        corner: unlike.corner,
        place: unlike.place + 1,
        first,
        other,
    })
}

// Whether all shapes are one, or where the first differs.
#[tactic(auto, using(crate::specs::Joining::other_shape, crate::specs::Joining::no_memory))]
fn compare_shapes(alloc: Global, cells: &[Cell]) -> Result<(), JoinEnd>
    requires { 0 < length cells.now }
    ensures alike { IsOk result ↔ AreOneShape cells.now }
    ensures refused { IfErr result (IsJoinEnd cells.now) }
{
    let Some(unlike) = first_unlike(cells) else {
        return Ok(());
    };
    match fault_of(alloc, cells, unlike) {
        Ok(fault) => Err(JoinEnd::Shape(fault)),
        Err(_) => Err(JoinEnd::OutOfMemory),
    }
}

/// One cell of its models at the corners, of which there are as many as corners, in order of their numbers.
///
/// Models of another shape than that of the first corner are refused, and then all are dropped. It takes memory for the two
/// entries of a refusal alone.
pub fn join_corners<C: CornerSet>(alloc: Global, cells: CellList) -> Result<CellSet<C>, JoinEnd>
    requires { length cells ≡ C.COUNT }
    ensures ok { IfOk result (λ set. set ≡ cells) }
    ensures alike { IsOk result ↔ AreOneShape cells }
    ensures refused { IfErr result (IsJoinEnd cells) }
{
    let cells = cells.into_cells();
    compare_shapes(alloc, cells.as_slice())?;
    Ok(CellSet::of(cells))
}

/// Models of the corners have at most one fault of their shapes: the corner, the place and the entries are given by the models. It
/// does nothing when it is called.
pub fn one_shape_fault()
    ensures law { OneShapeFault }
{}
