//! The whole text: the head of the file and its cell, the rows, and the end.
ghost use Rattle.std.specs.Prelude.{◌≡◌, ◌*◌, [], ◌∷◌, ◌++◌, length, flat_map, codes};
ghost use Rattle.edge_io.specs.Writing.{Writes};
ghost use Rattle.sdf_writer.specs.SdfText.{escaped, quoted, lines_text, opening_lines, sdf_text};
ghost use Rattle.sdf_writer.specs.Escapes.{is_escaped};
ghost use Rattle.sdf_writer.specs.Bounds.{AreWithin};
ghost use Rattle.edge_io.specs.Gathering.{Pushes};
ghost use Rattle.std.specs.List.{All, list_any};
ghost use Rattle.sdf_writer.specs.WireRows.{IsWireKept, wire_rows};

use crate::cells::write_cells;
use crate::entries::write_delays;
use crate::paths::Paths;
use crate::rows::{Rows, Wire};
use corner_set::CornerSet;
use delay_units::Femto;
use edge_io::{Failed, Sink, WaitingBytes};
use text_table::FlatTexts;

/// Writes the SDF text of the rows. It takes no memory. `Failed` comes only where the sink's count of
/// faults rose, and then a front of the text was written.
pub fn write<C: CornerSet, O: Sink>(rows: &Rows<C>, sink: &mut O) -> Result<(), Failed>
    ensures writes { Writes (sdf_text rows.now) (O.written sink.old) (O.written sink.new) (O.faults sink.old) (O.faults sink.new) result }
{
    let mut buffer = WaitingBytes::new();
    write_rows::<C, O>(
        &mut buffer,
        sink,
        rows.design.bytes(),
        &rows.names,
        rows.wires.as_slice(),
        rows.delays.as_slice(),
        &rows.paths,
    )?;
    buffer.flush(sink)?;
    Ok(())
}

// The text, into the buffer.
fn write_rows<C: CornerSet, O: Sink>(
    buffer: &mut WaitingBytes,
    sink: &mut O,
    design: &[u8],
    names: &FlatTexts,
    wires: &[Wire],
    delays: &[Femto],
    paths: &Paths<C>,
) -> Result<(), Failed>
    requires sizes { length delays.now ≡ length wires.now * C.COUNT }
    requires within { AreWithin delays.now }
    requires kept { All (IsWireKept (length names.now)) wires.now }
    ensures pushes { Pushes (buffer.old ++ sdf_text
        (record { design = design.now; wires = wire_rows C.COUNT names.now wires.now delays.now; paths = paths.now })) buffer.new
        (O.written sink.old) (O.written sink.new) (O.faults sink.old) (O.faults sink.new) result }
{
    write_opening(buffer, sink, design)?;
    write_delays::<C, O>(buffer, sink, names, wires, delays)?;
    write_end(buffer, sink)?;
    write_cells::<C, O>(buffer, sink, paths)?;
    write_end(buffer, sink)?;
    Ok(())
}

// The line that ends the cell of the design, and the file.
fn write_end<O: Sink>(buffer: &mut WaitingBytes, sink: &mut O) -> Result<(), Failed>
    ensures pushes { Pushes (buffer.old ++ lines_text (codes ")" ∷ [])) buffer.new
        (O.written sink.old) (O.written sink.new) (O.faults sink.old) (O.faults sink.new) result }
{
    buffer.push(sink, b")\n")
}

// The lines before the delays.
fn write_opening<O: Sink>(
    buffer: &mut WaitingBytes,
    sink: &mut O,
    design: &[u8],
) -> Result<(), Failed>
    ensures pushes { Pushes (buffer.old ++ lines_text (opening_lines design.now)) buffer.new
        (O.written sink.old) (O.written sink.new) (O.faults sink.old) (O.faults sink.new) result }
{
    buffer.push(sink, b"(DELAYFILE\n(SDFVERSION \"3.0\")\n(DESIGN ")?;
    write_quoted(buffer, sink, design)?;
    buffer.push(
        sink,
        b")\n(PROGRAM \"gdc\")\n(VERSION \"1\")\n(DIVIDER /)\n(TIMESCALE 1ps)\n(CELL\n(CELLTYPE ",
    )?;
    write_quoted(buffer, sink, design)?;
    buffer.push(sink, b")\n(INSTANCE)\n")?;
    Ok(())
}

// A text in quotation marks.
fn write_quoted<O: Sink>(buffer: &mut WaitingBytes, sink: &mut O, text: &[u8]) -> Result<(), Failed>
    ensures pushes { Pushes (buffer.old ++ quoted text.now) buffer.new
        (O.written sink.old) (O.written sink.new) (O.faults sink.old) (O.faults sink.new) result }
{
    buffer.push(sink, b"\"")?;
    write_escaped(buffer, sink, text)?;
    buffer.push(sink, b"\"")?;
    Ok(())
}

// Whether a byte has a backslash before it within quotation marks.
#[inline]
fn is_escaped(byte: u8) -> bool
    ensures { result ≡ is_escaped byte }
{
    byte == b'"' || byte == b'\\'
}

#[inline]
fn has_escaped(text: &[u8]) -> bool
    ensures { result ≡ list_any is_escaped text.now }
{
    text.iter().any(|byte| is_escaped(*byte))
}

// The bytes of a text within quotation marks. Most texts have none that is escaped, and are pushed as they are.
pub(crate) fn write_escaped<O: Sink>(
    buffer: &mut WaitingBytes,
    sink: &mut O,
    text: &[u8],
) -> Result<(), Failed>
    ensures pushes { Pushes (buffer.old ++ flat_map escaped text.now) buffer.new
        (O.written sink.old) (O.written sink.new) (O.faults sink.old) (O.faults sink.new) result }
{
    if has_escaped(text) {
        write_each_escaped(buffer, sink, text)
    } else {
        buffer.push(sink, text)
    }
}

// The same, byte by byte.
fn write_each_escaped<O: Sink>(
    buffer: &mut WaitingBytes,
    sink: &mut O,
    text: &[u8],
) -> Result<(), Failed>
    ensures pushes { Pushes (buffer.old ++ flat_map escaped text.now) buffer.new
        (O.written sink.old) (O.written sink.new) (O.faults sink.old) (O.faults sink.new) result }
{
    for byte in text {
        write_escaped_byte(buffer, sink, *byte)?;
    }
    Ok(())
}

fn write_escaped_byte<O: Sink>(
    buffer: &mut WaitingBytes,
    sink: &mut O,
    byte: u8,
) -> Result<(), Failed>
    ensures pushes { Pushes (buffer.old ++ escaped byte) buffer.new
        (O.written sink.old) (O.written sink.new) (O.faults sink.old) (O.faults sink.new) result }
{
    if is_escaped(byte) {
        buffer.push(sink, &[b'\\', byte])?;
    } else {
        buffer.push(sink, &[byte])?;
    }
    Ok(())
}
