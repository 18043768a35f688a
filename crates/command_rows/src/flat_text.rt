//! The text of a flat netlist. It takes no memory.
ghost use Rattle.std.specs.Prelude.{◌≡◌, ◌++◌, true, false, flat_map, OnOk};
ghost use Rattle.edge_io.specs.Gathering.{Pushes};
ghost use Rattle.edge_io.specs.Writing.{Writes};
ghost use Rattle.command_rows.specs.FlatText.{instance_line, net_line, flat_text};
ghost use Rattle.command_rows.specs.FlatLines.{HasLine, line_text};

use crate::flat_lines::{Line, write_line};
use corner_set::Single;
use design_phases::Design;
use edge_io::{Failed, Sink, WaitingBytes};

// Puts a line behind the bytes that wait, where there is room for all of it.
fn keep_line(design: &Design<Single>, line: Line, waiting: &mut WaitingBytes) -> bool
    requires { HasLine design.now line }
    ensures kept { result ≡ true → waiting.new ≡ waiting.old ++ line_text design.now line }
    ensures left { result ≡ false → waiting.new ≡ waiting.old }
{
    let before = waiting.len();
    match write_line(design, line, waiting) {
        Ok(()) => true,
        Err(Failed) => {
            waiting.cut_to(before);
            false
        }
    }
}

// Puts a line behind the bytes that wait. Where there is no room, these are written, and then the line.
fn put_line<O: Sink>(
    design: &Design<Single>,
    line: Line,
    waiting: &mut WaitingBytes,
    out: &mut O,
) -> Result<(), Failed>
    requires { HasLine design.now line }
    ensures pushes { Pushes (waiting.old ++ line_text design.now line) waiting.new
        (O.written out.old) (O.written out.new) (O.faults out.old) (O.faults out.new) result }
{
    if keep_line(design, line, waiting) {
        return Ok(());
    }
    waiting.flush(out)?;
    write_line(design, line, out)?;
    Ok(())
}

// Puts the lines of all instances behind the bytes that wait.
fn put_instances<O: Sink>(
    design: &Design<Single>,
    waiting: &mut WaitingBytes,
    out: &mut O,
) -> Result<(), Failed>
    ensures pushes { Pushes (waiting.old ++ flat_map (instance_line design.now) design.now.netlist.instances) waiting.new
        (O.written out.old) (O.written out.new) (O.faults out.old) (O.faults out.new) result }
{
    for i in 0..design.netlist().instance_count() {
        put_line(design, Line::Instance(i), waiting, out)?;
    }
    Ok(())
}

// Puts the lines of all nets behind the bytes that wait.
fn put_nets<O: Sink>(
    design: &Design<Single>,
    waiting: &mut WaitingBytes,
    out: &mut O,
) -> Result<(), Failed>
    ensures pushes { Pushes (waiting.old ++ flat_map (net_line design.now) design.now.netlist.nets) waiting.new
        (O.written out.old) (O.written out.new) (O.faults out.old) (O.faults out.new) result }
{
    for n in 0..design.netlist().net_count() {
        put_line(design, Line::Net(n), waiting, out)?;
    }
    Ok(())
}

/// Writes a line for each instance with its cell, and then one for each net with what drives it and how many sinks it has.
pub fn write_flat<O: Sink>(design: &Design<Single>, out: &mut O) -> Result<(), Failed>
    ensures writes { Writes (flat_text design.now) (O.written out.old) (O.written out.new) (O.faults out.old) (O.faults out.new) result }
{
    let mut waiting = WaitingBytes::new();
    put_instances(design, &mut waiting, out)?;
    put_nets(design, &mut waiting, out)?;
    waiting.flush(out)?;
    Ok(())
}
