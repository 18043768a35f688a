//! The rows of the wires of a design.
ghost use Rattle.std.specs.Prelude.{◌≡◌, ◌<◌, [], ◌∷◌, length, OnOk};
ghost use Rattle.netlist_link.specs.FlatNetlist.{net_at};
ghost use Rattle.sdf_writer.specs.Bounds.{AreWithin};
ghost use Rattle.sdf_writer.specs.WireEnds.{end_name};
ghost use Rattle.net_delays.specs.NetTimes.{HasSink};
ghost use Rattle.annotation_rows.specs.SdfEnds.{IsEndThere, end_sdf};
ghost use Rattle.annotation_rows.specs.WireRows.{driven_rows, net_rows, wire_delays, wire_row, wire_rows, with_wires};

use crate::sdf_ends::end_sdf;
use crate::spelled_netlist::SpelledNetlist;
use corner_set::{CornerSet, Grid, corner_at};
use delay_units::Femto;
use edge_io::OutOfMemory;
use elmore_pass::sink_femto;
use net_delays::NetDelays;
use netlist_link::End;
use sdf_writer::{Rows, WireEnd};
use std::alloc::Global;

// Puts the delays of the wire to a sink into a grid of one row.
#[tactic(auto, using(crate::proofs::Filling::filled_none, crate::proofs::Filling::filled_more, crate::proofs::Filling::filled_all, crate::proofs::Filling::filled_within, crate::proofs::Rounded::rounded_is))]
fn put_delays<C: CornerSet>(
    nets: &NetDelays<C>,
    net: usize,
    sink: usize,
    delay: &mut Grid<C, Femto>,
)
    requires one_row { length delay.old.values ≡ C.COUNT }
    requires sink { HasSink nets.now net sink }
    ensures values { delay.new.values ≡ wire_delays C.COUNT nets.now net sink }
    ensures one_row { length delay.new.values ≡ C.COUNT }
    ensures within { AreWithin delay.new.values }
{
    for number in 0..C::COUNT {
        let corner = corner_at::<C>(number);
        let elmore = nets.elmore(net, sink, corner);
        delay.set(0, corner, sink_femto(elmore));
    }
}

// Adds the row of the wire to a sink of a net, from the end that drives it, which has this name. The grid of one row is used anew.
#[tactic(auto, using(crate::proofs::EndsThere::sink_there))]
fn add_wire<C: CornerSet>(
    spelled: &SpelledNetlist<'_, C>,
    net: usize,
    driver: End,
    from: WireEnd<'_>,
    sink: usize,
    delay: &mut Grid<C, Femto>,
    rows: &mut Rows<C>,
) -> Result<(), OutOfMemory>
    requires net { net < length spelled.now.linked.now.netlist.nets }
    requires sink { sink < length (net_at spelled.now.linked.now.netlist net).sinks }
    requires from { end_name from ≡ end_sdf spelled.now.linked.now.cells spelled.now.linked.now.netlist driver }
    requires one_row { length delay.old.values ≡ C.COUNT }
    ensures row { OnOk result (rows.new ≡ with_wires rows.old (wire_row spelled.now.linked.now.cells spelled.now.linked.now.netlist C.COUNT
        spelled.now.nets.now driver net sink ∷ [])) }
    ensures one_row { length delay.new.values ≡ C.COUNT }
{
    put_delays(spelled.nets, net, sink, delay);
    let to = end_sdf(spelled, spelled.linked.netlist.sink(net, sink));
    rows.put_wire(from, to, delay)
}

// Adds the rows of the wires of a net from the end that drives it.
fn add_driven<C: CornerSet>(
    spelled: &SpelledNetlist<'_, C>,
    net: usize,
    driver: End,
    delay: &mut Grid<C, Femto>,
    rows: &mut Rows<C>,
) -> Result<(), OutOfMemory>
    requires net { net < length spelled.now.linked.now.netlist.nets }
    requires driver { IsEndThere spelled.now.linked.now.cells spelled.now.linked.now.netlist driver }
    requires one_row { length delay.old.values ≡ C.COUNT }
    ensures rows { OnOk result (rows.new ≡ with_wires rows.old
        (driven_rows spelled.now.linked.now.cells spelled.now.linked.now.netlist C.COUNT spelled.now.nets.now driver net
        (length (net_at spelled.now.linked.now.netlist net).sinks))) }
    ensures one_row { length delay.new.values ≡ C.COUNT }
{
    let from = end_sdf(spelled, driver);
    for sink in 0..spelled.linked.netlist.sink_count(net) {
        add_wire(spelled, net, driver, from, sink, delay, rows)?;
    }
    Ok(())
}

// Adds the rows of the wires of a net: none where nothing drives it.
#[tactic(auto, using(crate::proofs::EndsThere::driver_there, crate::proofs::WireLists::with_no_wires))]
fn add_net<C: CornerSet>(
    spelled: &SpelledNetlist<'_, C>,
    net: usize,
    delay: &mut Grid<C, Femto>,
    rows: &mut Rows<C>,
) -> Result<(), OutOfMemory>
    requires net { net < length spelled.now.linked.now.netlist.nets }
    requires one_row { length delay.old.values ≡ C.COUNT }
    ensures rows { OnOk result (rows.new ≡ with_wires rows.old (net_rows spelled.now.linked.now.cells spelled.now.linked.now.netlist C.COUNT
        spelled.now.nets.now net)) }
    ensures one_row { length delay.new.values ≡ C.COUNT }
{
    match spelled.linked.netlist.driver(net) {
        None => Ok(()),
        Some(driver) => add_driven(spelled, net, driver, delay, rows),
    }
}

/// Adds the rows of the wires of all nets, in order.
pub(crate) fn add_wires<C: CornerSet>(
    alloc: Global,
    spelled: &SpelledNetlist<'_, C>,
    rows: &mut Rows<C>,
) -> Result<(), OutOfMemory>
    ensures { OnOk result (rows.new ≡ with_wires rows.old (wire_rows spelled.now.linked.now.cells spelled.now.linked.now.netlist C.COUNT
        spelled.now.nets.now)) }
{
    let mut delay = Grid::with_rows(alloc, 1, Femto(0))?;
    for net in 0..spelled.linked.netlist.net_count() {
        add_net(spelled, net, &mut delay, rows)?;
    }
    Ok(())
}
