//! The largest delays of the paths of an instance.
ghost use Rattle.std.specs.Prelude.{◌≡◌, ◌+◌, ◌*◌, ◌<◌, ◌≤◌, if◌then◌else◌, length, replicate, None, OnOk};
ghost use Rattle.slew_order.specs.LivePaths.{larger};
ghost use Rattle.annotation_rows.specs.CellPaths.{ArePaths, arc_in, path_of};
ghost use Rattle.annotation_rows.specs.PathRows.{arc_has, cell_arcs};
ghost use Rattle.annotation_rows.specs.PathTables.{AreBests, arcs_with};

use crate::timed_netlist::TimedNetlist;
use cell_models::Edge;
use corner_set::{CornerSet, Grid};
use edge_io::{OutOfMemory, Steps};
use slew_order::ArcAt;
use std::alloc::Global;
use std::sync::ledger::Ledger;

// The larger of two delays, of which each may be missing.
fn larger(one: Option<i128>, other: Option<i128>) -> Option<i128>
    ensures { result ≡ larger one other }
{
    match (one, other) {
        (None, other) => other,
        (Some(one), None) => Some(one),
        (Some(one), Some(other)) => { if one < other { Some(other) } else { Some(one) } }
    }
}

// Makes a grid one of so many rows that have no value. It takes memory only where it has less room.
fn empty_rows<C: CornerSet>(
    alloc: Global,
    values: &mut Grid<C, Option<i128>>,
    rows: usize,
) -> Result<(), OutOfMemory>
    ensures { OnOk result (values.new.values ≡ replicate (rows * C.COUNT) None) }
{
    if rows <= values.room() {
        values.reuse(rows, None);
        return Ok(());
    }
    *values = Grid::with_rows(alloc, rows, None)?;
    Ok(())
}

// Puts the delay of an arc at an edge into the row of its path, at each corner where it is the largest.
fn add_arc<C: CornerSet, L: Ledger>(
    design: &TimedNetlist<'_, C>,
    at: ArcAt,
    path: usize,
    edge: Edge,
    values: &mut Grid<C, Option<i128>>,
    steps: &mut Steps<L>,
)
    requires instance { at.instance < length design.now.source.netlist.instances }
    requires arc { at.arc < length (cell_arcs design.now at.instance) }
    requires path { path ≡ path_of (cell_arcs design.now at.instance) at.arc }
    requires within { path < length (cell_arcs design.now at.instance) }
    requires before { AreBests design.now at.instance edge at.arc values.old.values }
    ensures bests { AreBests design.now at.instance edge (at.arc + 1) values.new.values }
    ensures steps { steps.new ≤ steps.old
        + 32 * (design.now.source.count * (if arc_has (arc_in (cell_arcs design.now at.instance) at.arc) edge then 1 else 0)) }
{
    for number in 0..design.corner_count() {
        let delay = design.delay(at, edge, number, steps);
        let corner = design.corner(number);
        let best = larger(values.get(path, corner), delay);
        values.set(path, corner, best);
    }
}

/// Makes a grid hold the largest delay of each path of an instance at an edge and each corner, in the row of its first arc. The arcs have
/// these paths. Each arc that has the edge is looked up once at each corner, in at most 32 steps.
#[tactic(auto, using(crate::proofs::BestSteps::bests_none, crate::proofs::BestSteps::path_below, crate::proofs::BestSteps::path_is, crate::proofs::BestSteps::steps_next, crate::proofs::BestSteps::steps_all))]
pub(crate) fn put_delays<C: CornerSet, L: Ledger>(
    alloc: Global,
    design: &TimedNetlist<'_, C>,
    instance: usize,
    paths: &[usize],
    edge: Edge,
    values: &mut Grid<C, Option<i128>>,
    steps: &mut Steps<L>,
) -> Result<(), OutOfMemory>
    requires instance { instance < length design.now.source.netlist.instances }
    requires paths { ArePaths (cell_arcs design.now instance) paths.now }
    ensures bests { OnOk result (AreBests design.now instance edge (length (cell_arcs design.now instance)) values.new.values) }
    ensures steps { steps.new ≤ steps.old + 32 * (design.now.source.count * arcs_with edge (cell_arcs design.now instance)) }
{
    let arcs = design.arc_count(instance);
    // as many corners as the grid has
    let _ = design.corner_count();
    empty_rows(alloc, values, arcs)?;
    for arc in 0..arcs {
        let at = ArcAt { instance, arc };
        add_arc(design, at, paths[arc], edge, values, steps);
    }
    Ok(())
}
