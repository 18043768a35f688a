//! The cells of paths, and the lines round them.
ghost use Rattle.std.specs.Prelude.{◌<◌, ◌++◌, length};
ghost use Rattle.std.specs.List.{All};
ghost use Rattle.sdf_writer.specs.Bounds.{AreWithin};
ghost use Rattle.edge_io.specs.Gathering.{Pushes};
ghost use Rattle.sdf_writer.specs.Names.{name_at};
ghost use Rattle.sdf_writer.specs.PathRows.{cell_of_names, cell_at, edge_at, path_row, path_rows, IsCellKept, IsEdgeKept, IsKept, names_text, times_text, line_text, opening_text, between_text, next_text, rest_text, cells_text};

use crate::names::name;
use crate::paths::{KeptCell, Path, Paths, is_cell};
use crate::text::write_escaped;
use crate::values::write_numbers;
use corner_set::CornerSet;
use delay_units::Femto;
use edge_io::{Failed, Sink, WaitingBytes};
use text_table::FlatTexts;

// A cell for the paths of each that stand together, with a line for each path.
pub(crate) fn write_cells<C: CornerSet, O: Sink>(
    buffer: &mut WaitingBytes,
    sink: &mut O,
    paths: &Paths<C>,
) -> Result<(), Failed>
    ensures pushes { Pushes (buffer.old ++ cells_text paths.now) buffer.new
        (O.written sink.old) (O.written sink.new) (O.faults sink.old) (O.faults sink.new) result }
{
    write_all_cells::<C, O>(
        buffer,
        sink,
        &paths.names,
        paths.cells.as_slice(),
        paths.times.as_slice(),
        paths.paths.as_slice(),
    )
}

fn write_all_cells<C: CornerSet, O: Sink>(
    buffer: &mut WaitingBytes,
    sink: &mut O,
    names: &FlatTexts,
    cells: &[KeptCell],
    times: &[Femto],
    paths: &[Path],
) -> Result<(), Failed>
    requires cells { All (IsCellKept (length names.now)) cells.now }
    requires kept { All (IsKept C.COUNT (length names.now) (length cells.now) (length times.now)) paths.now }
    requires within { AreWithin times.now }
    ensures pushes { Pushes (buffer.old ++ cells_text (path_rows C.COUNT names.now cells.now times.now paths.now)) buffer.new
        (O.written sink.old) (O.written sink.new) (O.faults sink.old) (O.faults sink.new) result }
{
    if let [first, others @ ..] = paths {
        write_opening(buffer, sink, names, &cells[first.cell])?;
        write_path::<C, O>(buffer, sink, names, times, first)?;
        write_others::<C, O>(buffer, sink, names, cells, times, first.cell, others)?;
    }
    Ok(())
}

// The paths behind one of some cell, up to the end of the last cell.
fn write_others<C: CornerSet, O: Sink>(
    buffer: &mut WaitingBytes,
    sink: &mut O,
    names: &FlatTexts,
    cells: &[KeptCell],
    times: &[Femto],
    cell: usize,
    paths: &[Path],
) -> Result<(), Failed>
    requires cell { cell < length cells.now }
    requires cells { All (IsCellKept (length names.now)) cells.now }
    requires kept { All (IsKept C.COUNT (length names.now) (length cells.now) (length times.now)) paths.now }
    requires within { AreWithin times.now }
    ensures pushes { Pushes (buffer.old ++ rest_text (cell_at names.now cells.now cell)
        (path_rows C.COUNT names.now cells.now times.now paths.now)) buffer.new
        (O.written sink.old) (O.written sink.new) (O.faults sink.old) (O.faults sink.new) result }
{
    let mut before = cell;
    for path in paths {
        write_next::<C, O>(buffer, sink, names, cells, times, before, path)?;
        before = path.cell;
    }
    buffer.push(sink, b")\n)\n)\n")?;
    Ok(())
}

// A path behind one of some cell.
fn write_next<C: CornerSet, O: Sink>(
    buffer: &mut WaitingBytes,
    sink: &mut O,
    names: &FlatTexts,
    cells: &[KeptCell],
    times: &[Femto],
    before: usize,
    path: &Path,
) -> Result<(), Failed>
    requires cell { before < length cells.now }
    requires cells { All (IsCellKept (length names.now)) cells.now }
    requires kept { IsKept C.COUNT (length names.now) (length cells.now) (length times.now) path.now }
    requires within { AreWithin times.now }
    ensures pushes { Pushes (buffer.old ++ next_text (cell_at names.now cells.now before)
        (path_row C.COUNT names.now cells.now times.now path.now)) buffer.new
        (O.written sink.old) (O.written sink.new) (O.faults sink.old) (O.faults sink.new) result }
{
    write_between(buffer, sink, names, &cells[before], &cells[path.cell])?;
    write_path::<C, O>(buffer, sink, names, times, path)?;
    Ok(())
}

// What stands between paths of two cells: nothing where they are one.
fn write_between<O: Sink>(
    buffer: &mut WaitingBytes,
    sink: &mut O,
    names: &FlatTexts,
    one: &KeptCell,
    other: &KeptCell,
) -> Result<(), Failed>
    requires one { IsCellKept (length names.now) one.now }
    requires other { IsCellKept (length names.now) other.now }
    ensures pushes { Pushes (buffer.old ++ between_text (cell_of_names names.now one.now) (cell_of_names names.now other.now)) buffer.new
        (O.written sink.old) (O.written sink.new) (O.faults sink.old) (O.faults sink.new) result }
{
    let kind = name(names, other.kind);
    let instance = name(names, other.instance);
    if is_cell(names, one, kind, instance) {
        return Ok(());
    }
    buffer.push(sink, b")\n)\n)\n")?;
    write_opening(buffer, sink, names, other)?;
    Ok(())
}

// The lines before the paths of a cell.
fn write_opening<O: Sink>(
    buffer: &mut WaitingBytes,
    sink: &mut O,
    names: &FlatTexts,
    cell: &KeptCell,
) -> Result<(), Failed>
    requires cell { IsCellKept (length names.now) cell.now }
    ensures pushes { Pushes (buffer.old ++ opening_text (cell_of_names names.now cell.now)) buffer.new
        (O.written sink.old) (O.written sink.new) (O.faults sink.old) (O.faults sink.new) result }
{
    let kind = name(names, cell.kind);
    let instance = name(names, cell.instance);
    buffer.push(sink, b"(CELL\n(CELLTYPE \"")?;
    write_escaped(buffer, sink, kind)?;
    buffer.push(sink, b"\")\n(INSTANCE ")?;
    buffer.push(sink, instance)?;
    buffer.push(sink, b")\n(DELAY\n(ABSOLUTE\n")?;
    Ok(())
}

// The line of a path.
fn write_path<C: CornerSet, O: Sink>(
    buffer: &mut WaitingBytes,
    sink: &mut O,
    names: &FlatTexts,
    times: &[Femto],
    path: &Path,
) -> Result<(), Failed>
    requires from { path.now.from < length names.now }
    requires to { path.now.to < length names.now }
    requires rise { IsEdgeKept C.COUNT (length times.now) path.now.rise }
    requires fall { IsEdgeKept C.COUNT (length times.now) path.now.fall }
    requires within { AreWithin times.now }
    ensures pushes { Pushes (buffer.old ++ line_text (name_at names.now path.now.from) (name_at names.now path.now.to)
        (edge_at C.COUNT times.now path.now.rise) (edge_at C.COUNT times.now path.now.fall)) buffer.new
        (O.written sink.old) (O.written sink.new) (O.faults sink.old) (O.faults sink.new) result }
{
    write_names(buffer, sink, name(names, path.from), name(names, path.to))?;
    write_times::<C, O>(buffer, sink, times, path.rise)?;
    buffer.push(sink, b") (")?;
    write_times::<C, O>(buffer, sink, times, path.fall)?;
    buffer.push(sink, b"))\n")?;
    Ok(())
}

// The names of a path's pins, up to the times of its rise.
fn write_names<O: Sink>(
    buffer: &mut WaitingBytes,
    sink: &mut O,
    from: &[u8],
    to: &[u8],
) -> Result<(), Failed>
    ensures pushes { Pushes (buffer.old ++ names_text from.now to.now) buffer.new
        (O.written sink.old) (O.written sink.new) (O.faults sink.old) (O.faults sink.new) result }
{
    buffer.push(sink, b"(IOPATH ")?;
    buffer.push(sink, from)?;
    buffer.push(sink, b" ")?;
    buffer.push(sink, to)?;
    buffer.push(sink, b" (")?;
    Ok(())
}

// The times of an edge that begin at a place, without their parentheses.
fn write_times<C: CornerSet, O: Sink>(
    buffer: &mut WaitingBytes,
    sink: &mut O,
    times: &[Femto],
    edge: Option<usize>,
) -> Result<(), Failed>
    requires kept { IsEdgeKept C.COUNT (length times.now) edge }
    requires within { AreWithin times.now }
    ensures pushes { Pushes (buffer.old ++ times_text (edge_at C.COUNT times.now edge)) buffer.new
        (O.written sink.old) (O.written sink.new) (O.faults sink.old) (O.faults sink.new) result }
{
    match edge {
        None => Ok(()),
        Some(place) => write_numbers(buffer, sink, &times[place..place + C::COUNT]),
    }
}
