//! The tree of a net without resistors: the driver's node alone, with all capacitance.
ghost use Rattle.std.specs.Prelude.{◌≡◌, ◌+◌, ◌*◌, ◌≤◌, length, OnOk, OnErr};
ghost use Rattle.rc_tree.specs.Arenas.{node_count};
ghost use Rattle.rc_tree.specs.Builds.{IsFit, IsTreeOf};

use crate::laying::put_roots;
use crate::layout::NodeLayout;
use crate::pin_source::PinSource;
use crate::planting::plant;
use crate::tree::RcTree;
use crate::workspace::SearchLists;
use corner_set::CornerSet;
use edge_io::lists::refill;
use edge_io::{OutOfMemory, Steps};
use spef_nets::Net;
use std::alloc::Global;
use std::sync::ledger::Ledger;

/// Makes a tree with no node that of a net without resistors. The lists are filled anew.
pub fn lone<C: CornerSet, P: PinSource<C>, L: Ledger>(
    alloc: Global,
    section: &Net<C>,
    pins: &P,
    lists: &mut SearchLists,
    tree: &mut RcTree<C>,
    steps: &mut Steps<L>,
) -> Result<(), OutOfMemory>
    requires fit { IsFit section.now (P.pins pins.now section.now) }
    requires no_resistor { length section.now.joints ≡ 0 }
    requires bare { node_count tree.old ≡ 0 }
    ensures tree { OnOk result (IsTreeOf C.COUNT section.now (P.pins pins.now section.now) tree.new) }
    ensures nodes { OnOk result (node_count tree.new ≤ 1) }
    ensures none { OnErr result (node_count tree.new ≡ 0) }
    ensures steps { steps.new ≤ steps.old + C.COUNT * length section.now.caps }
{
    refill(&mut lists.found.parents, 1, 0)?;
    refill(&mut lists.found.vias, 1, 0)?;
    refill(&mut lists.places.nodes, section.node_count(), 0)?;
    put_roots(&mut lists.places.sinks, pins.sink_count(section))?;
    let layout = NodeLayout {
        parents: &lists.found.parents,
        vias: &lists.found.vias,
        spots: &lists.places.nodes,
        sinks: &lists.places.sinks,
    };
    // at most two for each that is written
    section.cap_count();
    plant(alloc, section, pins, &layout, tree, steps)?;
    Ok(())
}
