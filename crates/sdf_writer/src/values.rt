//! The value of a delay: the numbers of its corners.
ghost use Rattle.std.specs.Prelude.{◌≡◌, ◌≤◌, ◌^◌, ◌∷◌, ◌++◌, unsigned_abs, map, flat_map};
ghost use Rattle.std.specs.List.{join_with_byte};
ghost use Rattle.delay_units.specs.Printing.{femto_text};
ghost use Rattle.sdf_writer.specs.Bounds.{AreWithin};
ghost use Rattle.edge_io.specs.Gathering.{Pushes};

use delay_units::{Femto, Text32, write_femto};
use edge_io::{Failed, Sink, WaitingBytes};

// The numbers, parted by colons.
pub(crate) fn write_numbers<O: Sink>(
    buffer: &mut WaitingBytes,
    sink: &mut O,
    delay: &[Femto],
) -> Result<(), Failed>
    requires within { AreWithin delay.now }
    ensures pushes { Pushes (buffer.old ++ join_with_byte 58 (map femto_text delay.now)) buffer.new
        (O.written sink.old) (O.written sink.new) (O.faults sink.old) (O.faults sink.new) result }
{
    if let [first, others @ ..] = delay {
        write_number(buffer, sink, *first)?;
        write_others(buffer, sink, others)?;
    }
    Ok(())
}

// The numbers after the first, each with a colon before it.
fn write_others<O: Sink>(
    buffer: &mut WaitingBytes,
    sink: &mut O,
    others: &[Femto],
) -> Result<(), Failed>
    requires within { AreWithin others.now }
    ensures pushes { Pushes (buffer.old ++ flat_map (λ time. 58 ∷ femto_text time) others.now) buffer.new
        (O.written sink.old) (O.written sink.new) (O.faults sink.old) (O.faults sink.new) result }
{
    for time in others {
        write_next(buffer, sink, *time)?;
    }
    Ok(())
}

fn write_next<O: Sink>(buffer: &mut WaitingBytes, sink: &mut O, time: Femto) -> Result<(), Failed>
    requires within { unsigned_abs time.0 ≤ 10 ^ 27 }
    ensures pushes { Pushes (buffer.old ++ 58 ∷ femto_text time) buffer.new
        (O.written sink.old) (O.written sink.new) (O.faults sink.old) (O.faults sink.new) result }
{
    buffer.push(sink, b":")?;
    write_number(buffer, sink, time)?;
    Ok(())
}

// A time in picoseconds, with three decimals.
fn write_number<O: Sink>(buffer: &mut WaitingBytes, sink: &mut O, time: Femto) -> Result<(), Failed>
    requires within { unsigned_abs time.0 ≤ 10 ^ 27 }
    ensures pushes { Pushes (buffer.old ++ femto_text time) buffer.new
        (O.written sink.old) (O.written sink.new) (O.faults sink.old) (O.faults sink.new) result }
{
    let mut text = Text32::new();
    write_femto(time, &mut text);
    buffer.push(sink, text.as_bytes())?;
    Ok(())
}
