//! The rows that annotate a design with its delays.
ghost use Rattle.std.specs.Prelude.{◌≡◌, ◌+◌, ◌*◌, ◌≤◌, IfOk};
ghost use Rattle.slew_order.specs.NetStates.{edges_in};
ghost use Rattle.slew_order.specs.Slews.{AreTablesOf};
ghost use Rattle.slew_order.specs.Timings.{source_of};
ghost use Rattle.annotation_rows.specs.Annotation.{annotation_of};
ghost use Rattle.annotation_rows.specs.PathRows.{timed_of};
ghost use Rattle.annotation_rows.specs.RowLaws.{AreShaped};

use crate::path_rows::add_all_paths;
use crate::spelled_netlist::{SpelledNetlist, spell_all};
use crate::timed_netlist::TimedNetlist;
use crate::wire_rows::add_wires;
use corner_set::CornerSet;
use edge_io::{OutOfMemory, Steps, Text};
use sdf_writer::Rows;
use slew_order::{LoadedNetlist, Slews};
use std::alloc::Global;
use std::sync::ledger::Ledger;

/// The rows that annotate a design of a name: one for the wire from the driver of each net to each of its sinks, with the Elmore sum, and
/// one for each path through each instance that has a delay, with the largest delay of its arcs at each edge. The netlist, its cells and
/// the loads and Elmore sums are those that the slews are of.
///
/// Each edge of each arc is looked up once at each corner: it takes at most 32 steps for each pair of an arc of an instance and an edge
/// that it has, and each corner, whatever it answers. Where it answers rows, each cell has one shape at all corners, as the laws of the
/// rows ask.
pub fn annotation_rows<C: CornerSet, L: Ledger>(
    alloc: Global,
    design: &Text,
    loaded: &LoadedNetlist<'_, C>,
    slews: &Slews<C>,
    steps: &mut Steps<L>,
) -> Result<Rows<C>, OutOfMemory>
    requires tables { AreTablesOf loaded.now.linked.now.netlist C.COUNT slews.now }
    ensures rows { IfOk result (λ rows. rows ≡ annotation_of design.now
        (timed_of loaded.now.linked.now.netlist loaded.now.linked.now.cells C.COUNT loaded.now.nets.now slews.now)) }
    ensures shaped { IfOk result (λ _. AreShaped C.COUNT loaded.now.linked.now.cells) }
    ensures steps { steps.new ≤ steps.old + 32 * (C.COUNT
        * edges_in (source_of loaded.now.linked.now.netlist loaded.now.linked.now.cells C.COUNT loaded.now.nets.now slews.now.beyond
        slews.now.mode slews.now.slew)) }
{
    let mut rows = Rows::new(alloc, Text::from_bytes(alloc, design.bytes())?);
    let pins = spell_all(alloc, &loaded.linked.cells)?;
    let spelled = SpelledNetlist {
        linked: loaded.linked,
        nets: loaded.nets,
        pins,
    };
    add_wires(alloc, &spelled, &mut rows)?;
    let timed = TimedNetlist::new(&spelled, slews);
    add_all_paths(alloc, &timed, &mut rows, steps)?;
    Ok(rows)
}
