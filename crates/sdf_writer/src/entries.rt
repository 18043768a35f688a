//! The rows of wires, and the lines round them.
ghost use Rattle.std.specs.Prelude.{◌≡◌, ◌*◌, ◌++◌, length};
ghost use Rattle.sdf_writer.specs.Bounds.{AreWithin};
ghost use Rattle.edge_io.specs.Gathering.{Pushes};
ghost use Rattle.sdf_writer.specs.SdfText.{lines_text, delay_lines, wire_line};
ghost use Rattle.std.specs.List.{All};
ghost use Rattle.sdf_writer.specs.WireRows.{IsWireKept, wire_rows, wire_text, wires_text};

use crate::names::name;
use crate::rows::Wire;
use crate::values::write_numbers;
use corner_set::CornerSet;
use delay_units::Femto;
use edge_io::{Failed, Sink, WaitingBytes};
use text_table::FlatTexts;

// The lines of the delays, none where there is no wire.
pub(crate) fn write_delays<C: CornerSet, O: Sink>(
    buffer: &mut WaitingBytes,
    sink: &mut O,
    names: &FlatTexts,
    wires: &[Wire],
    delays: &[Femto],
) -> Result<(), Failed>
    requires sizes { length delays.now ≡ length wires.now * C.COUNT }
    requires within { AreWithin delays.now }
    requires kept { All (IsWireKept (length names.now)) wires.now }
    ensures pushes { Pushes (buffer.old ++ lines_text (delay_lines (wire_rows C.COUNT names.now wires.now delays.now))) buffer.new
        (O.written sink.old) (O.written sink.new) (O.faults sink.old) (O.faults sink.new) result }
{
    if wires.is_empty() {
        return Ok(());
    }
    buffer.push(sink, b"(DELAY\n(ABSOLUTE\n")?;
    write_wires::<C, O>(buffer, sink, names, wires, delays)?;
    buffer.push(sink, b")\n)\n")?;
    Ok(())
}

// A line for each wire, with its next delays.
fn write_wires<C: CornerSet, O: Sink>(
    buffer: &mut WaitingBytes,
    sink: &mut O,
    names: &FlatTexts,
    wires: &[Wire],
    delays: &[Femto],
) -> Result<(), Failed>
    requires sizes { length delays.now ≡ length wires.now * C.COUNT }
    requires within { AreWithin delays.now }
    requires kept { All (IsWireKept (length names.now)) wires.now }
    ensures pushes { Pushes (buffer.old ++ wires_text (wire_rows C.COUNT names.now wires.now delays.now)) buffer.new
        (O.written sink.old) (O.written sink.new) (O.faults sink.old) (O.faults sink.new) result }
{
    let mut rest = delays;
    for wire in wires {
        let (delay, others) = rest.split_at(C::COUNT);
        let from = name(names, wire.from);
        let to = name(names, wire.to);
        write_wire(buffer, sink, from, to, delay)?;
        rest = others;
    }
    Ok(())
}

// The line of a wire.
fn write_wire<O: Sink>(
    buffer: &mut WaitingBytes,
    sink: &mut O,
    from: &[u8],
    to: &[u8],
    delay: &[Femto],
) -> Result<(), Failed>
    requires within { AreWithin delay.now }
    ensures pushes { Pushes (buffer.old ++ wire_text (record { from = from.now; to = to.now; delay = delay.now })) buffer.new
        (O.written sink.old) (O.written sink.new) (O.faults sink.old) (O.faults sink.new) result }
{
    buffer.push(sink, b"(INTERCONNECT ")?;
    buffer.push(sink, from)?;
    buffer.push(sink, b" ")?;
    buffer.push(sink, to)?;
    buffer.push(sink, b" (")?;
    write_numbers(buffer, sink, delay)?;
    buffer.push(sink, b"))\n")?;
    Ok(())
}
