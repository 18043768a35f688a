//! The lines of a flat netlist. They take no memory.
ghost use Rattle.std.specs.Prelude.{◌<◌, length, Some};
ghost use Rattle.edge_io.specs.Writing.{Writes};
ghost use Rattle.netlist_link.specs.FlatNetlist.{instance_at, net_at};
ghost use Rattle.netlist_link.specs.FlatPins.{pins_of};
ghost use Rattle.netlist_link.specs.declared.ends.End.TheVariants.{Pin};
ghost use Rattle.command_rows.specs.FlatText.{net_head, net_end, instance_line, driver_text, net_line};
ghost use Rattle.command_rows.specs.FlatLines.{HasLine, line_text};

use corner_set::Single;
use design_phases::Design;
use edge_io::{Failed, Sink, write_3, write_5, write_all};
use itoa::Buffer;
use netlist_link::End;

/// A line: that of an instance or of a net, by its number.
#[derive(Clone, Copy)]
pub(crate) enum Line {
    Instance(usize),
    Net(usize),
}

// Writes the line of an instance.
#[tactic(auto, using(crate::proofs::FlatEnds::cell_there))]
fn write_instance<O: Sink>(design: &Design<Single>, i: usize, out: &mut O) -> Result<(), Failed>
    requires { i < length design.now.netlist.instances }
    ensures writes { Writes (instance_line design.now (instance_at design.now.netlist i)) (O.written out.old) (O.written out.new)
        (O.faults out.old) (O.faults out.new) result }
{
    let netlist = design.netlist();
    let cell = design.cells().name(netlist.cell_of(i));
    write_5(
        out,
        b"instance ",
        netlist.instance_text(i),
        b" ",
        cell.bytes(),
        b"\n",
    )
}

// Writes a pin of an instance.
#[tactic(auto, using(crate::proofs::FlatEnds::cell_there))]
fn write_pin<O: Sink>(
    design: &Design<Single>,
    instance: usize,
    pin: usize,
    out: &mut O,
) -> Result<(), Failed>
    requires instance { instance < length design.now.netlist.instances }
    requires pin { pin < length (pins_of design.now.cells (instance_at design.now.netlist instance).cell) }
    ensures writes { Writes (driver_text design.now (Some (Pin instance pin))) (O.written out.old) (O.written out.new)
        (O.faults out.old) (O.faults out.new) result }
{
    let netlist = design.netlist();
    let cell = design.cells().set(netlist.cell_of(instance));
    let name = &cell.pin(pin, ()).name;
    write_3(out, netlist.instance_text(instance), b"/", name.bytes())
}

// Writes what drives a net.
#[tactic(auto, using(crate::proofs::FlatEnds::port_there, crate::proofs::FlatEnds::instance_there, crate::proofs::FlatEnds::pin_there))]
fn write_driver<O: Sink>(design: &Design<Single>, n: usize, out: &mut O) -> Result<(), Failed>
    requires { n < length design.now.netlist.nets }
    ensures writes { Writes (driver_text design.now (net_at design.now.netlist n).driver) (O.written out.old) (O.written out.new)
        (O.faults out.old) (O.faults out.new) result }
{
    let netlist = design.netlist();
    match netlist.driver(n) {
        None => write_all(out, b"-"),
        Some(End::Port(p)) => write_all(out, netlist.port_text(p).bytes()),
        Some(End::Pin { instance, pin }) => write_pin(design, instance, pin, out),
    }
}

// Writes the name of a net.
fn write_net_head<O: Sink>(design: &Design<Single>, n: usize, out: &mut O) -> Result<(), Failed>
    requires { n < length design.now.netlist.nets }
    ensures writes { Writes (net_head (net_at design.now.netlist n)) (O.written out.old) (O.written out.new)
        (O.faults out.old) (O.faults out.new) result }
{
    let netlist = design.netlist();
    write_3(out, b"net ", netlist.net_text(n), b" ")
}

// Writes how many sinks a net has.
fn write_sinks<O: Sink>(design: &Design<Single>, n: usize, out: &mut O) -> Result<(), Failed>
    requires { n < length design.now.netlist.nets }
    ensures writes { Writes (net_end (net_at design.now.netlist n)) (O.written out.old) (O.written out.new)
        (O.faults out.old) (O.faults out.new) result }
{
    let netlist = design.netlist();
    let mut buffer = Buffer::new();
    let sinks = buffer.format(netlist.sink_count(n)).as_bytes();
    write_3(out, b" ", sinks, b"\n")
}

// Writes the line of a net.
fn write_net<O: Sink>(design: &Design<Single>, n: usize, out: &mut O) -> Result<(), Failed>
    requires { n < length design.now.netlist.nets }
    ensures writes { Writes (net_line design.now (net_at design.now.netlist n)) (O.written out.old) (O.written out.new)
        (O.faults out.old) (O.faults out.new) result }
{
    write_net_head(design, n, out)?;
    write_driver(design, n, out)?;
    write_sinks(design, n, out)?;
    Ok(())
}

/// Writes a line.
pub(crate) fn write_line<O: Sink>(
    design: &Design<Single>,
    line: Line,
    out: &mut O,
) -> Result<(), Failed>
    requires { HasLine design.now line }
    ensures writes { Writes (line_text design.now line) (O.written out.old) (O.written out.new)
        (O.faults out.old) (O.faults out.new) result }
{
    match line {
        Line::Instance(i) => write_instance(design, i, out),
        Line::Net(n) => write_net(design, n, out),
    }
}
