//! Tells the rows.
ghost use Rattle.edge_io.specs.Gathering.{Pushes};
ghost use Rattle.edge_io.specs.Writing.{Writes};
ghost use Rattle.std.specs.Prelude.{◌≡◌, ◌∷◌, ◌++◌, true, false, codes};
ghost use Rattle.sdf_reader.specs.Lines.{member_text, is_single, members_text, value_text, instance_text, both_text, same_member, same_value, wire_values_text, wire_line, path_names_text, path_line, row_line, rows_text};

use crate::rows::{SdfRow, SdfRows, Value};
use crate::times::print_time;
use delay_units::Femto;
use edge_io::{Failed, Sink, WaitingBytes, write_2, write_4, write_all};

/// A member of a value, or `-` where it is left out.
fn print_member<O: Sink>(member: Option<Femto>, sink: &mut O) -> Result<(), Failed>
    ensures writes { Writes (member_text member) (O.written sink.old) (O.written sink.new) (O.faults sink.old) (O.faults sink.new) result }
{
    match member {
        None => write_all(sink, b"-"),
        Some(time) => print_time(time.0, sink),
    }
}

/// Whether all members of a value are equal.
fn is_single(value: &Value) -> bool
    ensures { result ≡ is_single value.now }
{
    value.min == value.typ && value.typ == value.max
}

/// A colon and a member.
fn print_next<O: Sink>(member: Option<Femto>, sink: &mut O) -> Result<(), Failed>
    ensures writes { Writes (58 ∷ member_text member) (O.written sink.old) (O.written sink.new) (O.faults sink.old)
        (O.faults sink.new) result }
{
    write_all(sink, b":")?;
    print_member(member, sink)?;
    Ok(())
}

/// The members of a value with colons between them.
fn print_members<O: Sink>(value: &Value, sink: &mut O) -> Result<(), Failed>
    ensures writes { Writes (members_text value.now) (O.written sink.old) (O.written sink.new) (O.faults sink.old)
        (O.faults sink.new) result }
{
    print_member(value.min, sink)?;
    print_next(value.typ, sink)?;
    print_next(value.max, sink)?;
    Ok(())
}

/// A value: one member where all are equal, or else the three with colons between them.
fn print_value<O: Sink>(value: &Value, sink: &mut O) -> Result<(), Failed>
    ensures writes { Writes (value_text value.now) (O.written sink.old) (O.written sink.new) (O.faults sink.old)
        (O.faults sink.new) result }
{
    if is_single(value) {
        print_member(value.min, sink)
    } else {
        print_members(value, sink)
    }
}

/// An instance with a blank behind it, or `-` where it is empty.
fn print_instance<O: Sink>(instance: &[u8], sink: &mut O) -> Result<(), Failed>
    ensures writes { Writes (instance_text instance.now ++ codes " ") (O.written sink.old) (O.written sink.new) (O.faults sink.old)
        (O.faults sink.new) result }
{
    if instance.is_empty() {
        write_all(sink, b"- ")
    } else {
        write_2(sink, instance, b" ")
    }
}

/// Both values of a path, or of a wire whose rise and fall differ.
fn print_both<O: Sink>(rise: &Value, fall: &Value, sink: &mut O) -> Result<(), Failed>
    ensures writes { Writes (both_text rise.now fall.now) (O.written sink.old) (O.written sink.new) (O.faults sink.old)
        (O.faults sink.new) result }
{
    print_value(rise, sink)?;
    write_all(sink, b" ")?;
    print_value(fall, sink)?;
    Ok(())
}

/// Whether two members are equal.
fn same_member(one: Option<Femto>, other: Option<Femto>) -> bool
    ensures { result ≡ same_member one other }
{
    one == other
}

/// Whether two values are equal.
fn same_value(one: &Value, other: &Value) -> bool
    ensures { result ≡ same_value one.now other.now }
{
    same_member(one.min, other.min)
        && same_member(one.typ, other.typ)
        && same_member(one.max, other.max)
}

/// The values of a wire: one where its rise and its fall are equal.
fn print_values<O: Sink>(rise: &Value, fall: &Value, sink: &mut O) -> Result<(), Failed>
    ensures writes { Writes (wire_values_text rise.now fall.now) (O.written sink.old) (O.written sink.new) (O.faults sink.old)
        (O.faults sink.new) result }
{
    if same_value(rise, fall) {
        print_value(rise, sink)
    } else {
        print_both(rise, fall, sink)
    }
}

/// The line of a wire.
fn print_wire<O: Sink>(
    from: &[u8],
    to: &[u8],
    rise: &Value,
    fall: &Value,
    sink: &mut O,
) -> Result<(), Failed>
    ensures writes { Writes (wire_line from.now to.now rise.now fall.now) (O.written sink.old) (O.written sink.new) (O.faults sink.old)
        (O.faults sink.new) result }
{
    write_all(sink, b"wire ")?;
    write_4(sink, from, b" ", to, b" ")?;
    print_values(rise, fall, sink)?;
    write_all(sink, b"\n")?;
    Ok(())
}

/// The names of a path behind the word for it, each with a blank behind it.
fn print_path_names<O: Sink>(
    instance: &[u8],
    from: &[u8],
    to: &[u8],
    sink: &mut O,
) -> Result<(), Failed>
    ensures writes { Writes (path_names_text instance.now from.now to.now)
        (O.written sink.old) (O.written sink.new) (O.faults sink.old) (O.faults sink.new) result }
{
    write_all(sink, b"path ")?;
    print_instance(instance, sink)?;
    write_4(sink, from, b" ", to, b" ")?;
    Ok(())
}

/// The line of a path.
fn print_path<O: Sink>(
    instance: &[u8],
    from: &[u8],
    to: &[u8],
    rise: &Value,
    fall: &Value,
    sink: &mut O,
) -> Result<(), Failed>
    ensures writes { Writes (path_line instance.now from.now to.now rise.now fall.now)
        (O.written sink.old) (O.written sink.new) (O.faults sink.old) (O.faults sink.new) result }
{
    print_path_names(instance, from, to, sink)?;
    print_both(rise, fall, sink)?;
    write_all(sink, b"\n")?;
    Ok(())
}

/// The line of a row.
fn print_row<O: Sink>(row: &SdfRow, sink: &mut O) -> Result<(), Failed>
    ensures writes { Writes (row_line row.now) (O.written sink.old) (O.written sink.new) (O.faults sink.old) (O.faults sink.new) result }
{
    match row {
        SdfRow::Wire {
            from,
            to,
            rise,
            fall,
        } => print_wire(from.bytes(), to.bytes(), rise, fall, sink),
        SdfRow::Path {
            cell: _,
            instance,
            from,
            to,
            rise,
            fall,
        } => print_path(instance.bytes(), from.bytes(), to.bytes(), rise, fall, sink),
    }
}

/// Puts the line of a row behind those that wait, where there is room for all of it.
fn keep_row(row: &SdfRow, waiting: &mut WaitingBytes) -> bool
    ensures kept { result ≡ true → waiting.new ≡ waiting.old ++ row_line row.now }
    ensures left { result ≡ false → waiting.new ≡ waiting.old }
{
    let before = waiting.len();
    match print_row(row, waiting) {
        Ok(()) => true,
        Err(Failed) => {
            waiting.cut_to(before);
            false
        }
    }
}

/// Puts the line of a row behind those that wait. Where there is no room, these are written, and then the line.
fn put_row<O: Sink>(row: &SdfRow, waiting: &mut WaitingBytes, sink: &mut O) -> Result<(), Failed>
    ensures pushes { Pushes (waiting.old ++ row_line row.now) waiting.new
        (O.written sink.old) (O.written sink.new) (O.faults sink.old) (O.faults sink.new) result }
{
    if keep_row(row, waiting) {
        return Ok(());
    }
    waiting.flush(sink)?;
    print_row(row, sink)?;
    Ok(())
}

/// Writes a line for each row: `wire FROM TO V`, or `wire FROM TO V V` where the rise and the fall differ, or
/// `path INSTANCE IN OUT V V`, with `-` for an empty instance. A value is `-` where it has no number, one time in picoseconds
/// with three decimals where all its members are equal, or else its three members with colons between them and `-` for one
/// that is left out. It takes no memory.
pub fn print_rows<O: Sink>(rows: &SdfRows, sink: &mut O) -> Result<(), Failed>
    ensures writes { Writes (rows_text rows.now) (O.written sink.old) (O.written sink.new) (O.faults sink.old) (O.faults sink.new) result }
{
    let mut waiting = WaitingBytes::new();
    for row in &rows.rows {
        put_row(row, &mut waiting, sink)?;
    }
    waiting.flush(sink)?;
    Ok(())
}
