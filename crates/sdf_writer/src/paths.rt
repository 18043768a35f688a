//! The rows of paths through cells, as they are collected.
ghost use Rattle.std.specs.Prelude.{◌≡◌, ℕ, ◌-◌, ◌<◌, ◌≤◌, [], ◌∷◌, ◌++◌, length, IsTrue, IfOk, IfSome, OnOk, OnErr};
ghost use Rattle.std.specs.List.{All};
ghost use Rattle.sdf_writer.specs.Names.{ExtendsNames};
ghost use Rattle.sdf_writer.specs.PathRows.{cell_of_names, cell_at, is_same, IsCellKept, IsKept, IsEdge, edge_times, Extends, ExtendsTimes, KeepsEdge, KeepsCellNames, KeepsCell, KeepsRow};

use crate::names::{keep_again, keep_name, name};
use crate::times::add_times;
use corner_set::{CornerSet, Grid};
use delay_units::Femto;
use edge_io::OutOfMemory;
use std::alloc::Global;
use std::marker::{Model, PhantomData};
use text_table::FlatTexts;

// Contracts see the list of the rows.
#[derive(Drop)]
pub(crate) struct Paths<C: CornerSet> {
    // the names of all cells and of their pins
    pub(crate) names: FlatTexts,
    // a cell once for the paths of it that were added one after another
    pub(crate) cells: Vec<KeptCell>,
    pub(crate) paths: Vec<Path>,
    // the times of all edges, of each its corners by number
    pub(crate) times: Vec<Femto>,
    pub(crate) corners: PhantomData<C>,
}

/// The names in the row of a path: the type of its cell, a plain text, and its instance and its pins in the spelling of SDF.
#[derive(Clone, Copy)]
pub struct PathNames<'n> {
    pub cell: &'n [u8],
    pub instance: &'n [u8],
    pub from: &'n [u8],
    pub to: &'n [u8],
}

// The numbers of a cell's two names.
#[derive(Drop)]
pub(crate) struct KeptCell {
    pub(crate) kind: u32,
    pub(crate) instance: u32,
}

// The place of a path's cell, the numbers of the names of its pins, and the places where the times of its edges begin.
#[derive(Drop)]
pub(crate) struct Path {
    pub(crate) cell: usize,
    pub(crate) from: u32,
    pub(crate) to: u32,
    pub(crate) rise: Option<usize>,
    pub(crate) fall: Option<usize>,
}

impl<C: CornerSet> Model for Paths<C> {
    ghost use Rattle.std.specs.Prelude.{List, length};
    ghost use Rattle.std.specs.List.{All};
    ghost use Rattle.sdf_writer.specs.SdfText.{PathRow};
    ghost use Rattle.sdf_writer.specs.Bounds.{AreWithin};
    ghost use Rattle.sdf_writer.specs.PathRows.{IsCellKept, IsKept, path_rows};

    ghost Value = { List PathRow };

    ghost view = { λ paths. path_rows C.COUNT paths.names paths.cells.items paths.times.items paths.paths.items };

    ghost invariant = { λ paths. All (IsCellKept (length paths.names)) paths.cells.items
        × All (IsKept C.COUNT (length paths.names) (length paths.cells.items) (length paths.times.items)) paths.paths.items
        × AreWithin paths.times.items };
}

impl<C: CornerSet> Paths<C> {
    // No rows yet. It takes no memory.
    pub(crate) fn new(alloc: Global) -> Paths<C>
        ensures { result ≡ [] }
    {
        Paths {
            names: FlatTexts::new(alloc),
            cells: Vec::new(alloc),
            paths: Vec::new(alloc),
            times: Vec::new(alloc),
            corners: PhantomData,
        }
    }

    // Puts the row of a path at the end.
    pub(crate) fn add(
        &mut self,
        names: PathNames<'_>,
        rise: Option<&Grid<C, Femto>>,
        fall: Option<&Grid<C, Femto>>,
    ) -> Result<(), OutOfMemory>
        requires rise { IsEdge C.COUNT (edge_times rise) }
        requires fall { IsEdge C.COUNT (edge_times fall) }
        ensures ok { OnOk result (self.new ≡ self.old
            ++ record {
              cell = names.entry.cell.now;
              instance = names.entry.instance.now;
              from = names.entry.from.now;
              to = names.entry.to.now;
              rise = edge_times rise.entry;
              fall = edge_times fall.entry;
            } ∷ []) }
        ensures err { OnErr result (self.new ≡ self.old) }
    {
        self.paths.reserve(1)?;
        let path = keep_path(
            &mut self.names,
            &mut self.cells,
            &mut self.times,
            last_pins(&self.paths),
            names,
            rise,
            fall,
        )?;
        // There is room for it.
        let _ = self.paths.push(path);
        Ok(())
    }
}

// The numbers of the names of the last path's pins.
#[inline]
fn last_pins(paths: &[Path]) -> (Option<u32>, Option<u32>)
    ensures from { (count names cells times : ℕ) → All (IsKept count names cells times) paths.now
        → IfSome result.0 (λ number. number < names) }
    ensures to { (count names cells times : ℕ) → All (IsKept count names cells times) paths.now
        → IfSome result.1 (λ number. number < names) }
{
    match paths.last() {
        Some(path) => (Some(path.from), Some(path.to)),
        None => (None, None),
    }
}

// Keeps the cell of a path, the names of its pins and its times. The pins may have the names of these numbers.
fn keep_path<C: CornerSet>(
    names: &mut FlatTexts,
    cells: &mut Vec<KeptCell>,
    times: &mut Vec<Femto>,
    before: (Option<u32>, Option<u32>),
    row: PathNames<'_>,
    rise: Option<&Grid<C, Femto>>,
    fall: Option<&Grid<C, Femto>>,
) -> Result<Path, OutOfMemory>
    requires cells { All (IsCellKept (length names.old)) cells.old.items }
    requires from { IfSome before.0 (λ number. number < length names.old) }
    requires to { IfSome before.1 (λ number. number < length names.old) }
    requires rise { IsEdge C.COUNT (edge_times rise) }
    requires fall { IsEdge C.COUNT (edge_times fall) }
    ensures kept { IfOk result
        (KeepsRow C.COUNT names.new cells.new.items times.new.items
        (record {
          cell = row.entry.cell.now;
          instance = row.entry.instance.now;
          from = row.entry.from.now;
          to = row.entry.to.now;
          rise = edge_times rise.entry;
          fall = edge_times fall.entry;
        })) }
    ensures names { ExtendsNames names.old names.new }
    ensures cells { Extends (length names.new) cells.old.items cells.new.items }
    ensures times { ExtendsTimes times.old.items times.new.items }
{
    let edges = keep_edges(times, rise, fall)?;
    let from = keep_again(names, before.0, row.from)?;
    let to = keep_again(names, before.1, row.to)?;
    let cell = keep_cell(names, cells, row.cell, row.instance)?;
    Ok(Path {
        cell,
        from,
        to,
        rise: edges.0,
        fall: edges.1,
    })
}

// Keeps the times of both edges.
fn keep_edges<C: CornerSet>(
    times: &mut Vec<Femto>,
    rise: Option<&Grid<C, Femto>>,
    fall: Option<&Grid<C, Femto>>,
) -> Result<(Option<usize>, Option<usize>), OutOfMemory>
    requires rise { IsEdge C.COUNT (edge_times rise) }
    requires fall { IsEdge C.COUNT (edge_times fall) }
    ensures rise { IfOk result (λ places. KeepsEdge C.COUNT times.new.items (edge_times rise.entry) places.0) }
    ensures fall { IfOk result (λ places. KeepsEdge C.COUNT times.new.items (edge_times fall.entry) places.1) }
    ensures times { ExtendsTimes times.old.items times.new.items }
{
    let rise = keep_edge(times, rise)?;
    let fall = keep_edge(times, fall)?;
    Ok((rise, fall))
}

// Keeps the times of an edge.
fn keep_edge<C: CornerSet>(
    times: &mut Vec<Femto>,
    edge: Option<&Grid<C, Femto>>,
) -> Result<Option<usize>, OutOfMemory>
    requires { IsEdge C.COUNT (edge_times edge) }
    ensures kept { IfOk result (KeepsEdge C.COUNT times.new.items (edge_times edge.entry)) }
    ensures times { ExtendsTimes times.old.items times.new.items }
{
    match edge {
        None => Ok(None),
        Some(delay) => {
            let place = times.len();
            add_times(times, delay.as_slice())?;
            Ok(Some(place))
        }
    }
}

// Keeps a cell, unless it is the last one.
fn keep_cell(
    names: &mut FlatTexts,
    cells: &mut Vec<KeptCell>,
    kind: &[u8],
    instance: &[u8],
) -> Result<usize, OutOfMemory>
    requires cells { All (IsCellKept (length names.now)) cells.now.items }
    ensures kept { IfOk result (KeepsCell names.new cells.new.items (record { kind = kind.now; instance = instance.now })) }
    ensures names { ExtendsNames names.old names.new }
    ensures cells { Extends (length names.new) cells.old.items cells.new.items }
{
    let count = cells.len();
    if is_last(names, cells.as_slice(), kind, instance) {
        return Ok(count - 1);
    }
    cells.reserve(1)?;
    let kept = keep_names(names, last_kind(cells.as_slice()), kind, instance)?;
    // There is room for it.
    let _ = cells.push(kept);
    Ok(count)
}

// The number of the type of the last cell. Cells of one type stand together, as a rule.
#[inline]
fn last_kind(cells: &[KeptCell]) -> Option<u32>
    ensures { (names : ℕ) → All (IsCellKept names) cells.now → IfSome result (λ number. number < names) }
{
    match cells.last() {
        Some(cell) => Some(cell.kind),
        None => None,
    }
}

// Keeps the names of a cell. Its type may be the name of this number.
fn keep_names(
    names: &mut FlatTexts,
    before: Option<u32>,
    kind: &[u8],
    instance: &[u8],
) -> Result<KeptCell, OutOfMemory>
    requires { IfSome before (λ number. number < length names.old) }
    ensures kept { IfOk result (KeepsCellNames names.new (record { kind = kind.now; instance = instance.now })) }
    ensures names { ExtendsNames names.old names.new }
{
    let kind = keep_again(names, before, kind)?;
    let instance = keep_name(names, instance)?;
    Ok(KeptCell { kind, instance })
}

// Whether the cell is the last one.
fn is_last(names: &FlatTexts, cells: &[KeptCell], kind: &[u8], instance: &[u8]) -> bool
    requires cells { All (IsCellKept (length names.now)) cells.now }
    ensures { IsTrue result → (1 ≤ length cells.now)
        × (cell_at names.now cells.now (length cells.now - 1) ≡ record { kind = kind.now; instance = instance.now }) }
{
    match cells.last() {
        None => false,
        Some(last) => is_cell(names, last, kind, instance),
    }
}

// Whether a cell is of that type and that instance.
#[inline(always)]
pub(crate) fn is_cell(names: &FlatTexts, cell: &KeptCell, kind: &[u8], instance: &[u8]) -> bool
    requires cell { IsCellKept (length names.now) cell.now }
    ensures { result ≡ is_same (cell_of_names names.now cell.now) (record { kind = kind.now; instance = instance.now }) }
{
    name(names, cell.kind) == kind && name(names, cell.instance) == instance
}
