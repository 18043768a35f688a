ghost use Rattle.std.specs.Prelude.{◌++◌};
ghost use Rattle.edge_io.specs.Writing.{Writes};

use crate::failures::Failed;
use crate::sinks::Sink;

/// Writes all of the bytes, in as many calls as the sink needs.
pub fn write_all<O: Sink>(sink: &mut O, bytes: &[u8]) -> Result<(), Failed>
    ensures writes { Writes bytes.now (O.written sink.old) (O.written sink.new) (O.faults sink.old) (O.faults sink.new) result }
{
    let mut rest = bytes;
    while !rest.is_empty() {
        let taken = sink.write(rest)?;
        rest = &rest[taken..];
    }
    Ok(())
}

/// Writes two texts, one after the other.
pub fn write_2<O: Sink>(sink: &mut O, first: &[u8], second: &[u8]) -> Result<(), Failed>
    ensures writes { Writes (first.now ++ second.now) (O.written sink.old) (O.written sink.new) (O.faults sink.old)
        (O.faults sink.new) result }
{
    write_all(sink, first)?;
    write_all(sink, second)?;
    Ok(())
}

/// Writes three texts, one after the other.
pub fn write_3<O: Sink>(
    sink: &mut O,
    first: &[u8],
    second: &[u8],
    third: &[u8],
) -> Result<(), Failed>
    ensures writes { Writes (first.now ++ (second.now ++ third.now)) (O.written sink.old) (O.written sink.new) (O.faults sink.old)
        (O.faults sink.new) result }
{
    write_all(sink, first)?;
    write_2(sink, second, third)?;
    Ok(())
}

/// Writes four texts, one after the other.
pub fn write_4<O: Sink>(
    sink: &mut O,
    first: &[u8],
    second: &[u8],
    third: &[u8],
    fourth: &[u8],
) -> Result<(), Failed>
    ensures writes { Writes (first.now ++ (second.now ++ (third.now ++ fourth.now))) (O.written sink.old) (O.written sink.new)
        (O.faults sink.old) (O.faults sink.new) result }
{
    write_all(sink, first)?;
    write_3(sink, second, third, fourth)?;
    Ok(())
}

/// Writes five texts, one after the other.
pub fn write_5<O: Sink>(
    sink: &mut O,
    first: &[u8],
    second: &[u8],
    third: &[u8],
    fourth: &[u8],
    fifth: &[u8],
) -> Result<(), Failed>
    ensures writes { Writes (first.now ++ (second.now ++ (third.now ++ (fourth.now ++ fifth.now)))) (O.written sink.old)
        (O.written sink.new) (O.faults sink.old) (O.faults sink.new) result }
{
    write_all(sink, first)?;
    write_4(sink, second, third, fourth, fifth)?;
    Ok(())
}
