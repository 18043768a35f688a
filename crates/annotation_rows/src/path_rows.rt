//! The rows of the paths through the instances of a design.
ghost use Rattle.std.specs.Prelude.{◌≡◌, ◌+◌, ◌*◌, ◌<◌, ◌≤◌, if◌then◌else◌, [], ◌∷◌, length, Some, None, IsTrue, IfOk, OnOk};
ghost use Rattle.cell_models.specs.declared.edge.Edge.TheVariants.{Rise, Fall};
ghost use Rattle.netlist_link.specs.FlatNetlist.{instance_at};
ghost use Rattle.sdf_writer.specs.Bounds.{AreWithin};
ghost use Rattle.sdf_writer.specs.PathRows.{IsEdge, edge_times};
ghost use Rattle.slew_order.specs.NetStates.{edges_in};
ghost use Rattle.annotation_rows.specs.CellPaths.{ArePaths, HavePaths, path_of};
ghost use Rattle.annotation_rows.specs.PathRows.{cell_arcs, cell_name, edge_delays, if_delayed, instance_rows, path_row, path_rows, rows_at, with_paths};
ghost use Rattle.annotation_rows.specs.PathTables.{AreBests, AreLargest, instance_edges};
ghost use Rattle.annotation_rows.specs.RowLaws.{AreShaped};

use crate::cell_paths::{ArcPaths, paths_of_all};
use crate::path_delays::put_delays;
use crate::put_times::put_times;
use crate::timed_netlist::TimedNetlist;
use cell_models::Edge;
use corner_set::{CornerSet, Grid};
use delay_units::Femto;
use edge_io::{OutOfMemory, Steps};
use sdf_writer::{PathNames, Rows};
use slew_order::ArcAt;
use std::alloc::Global;
use std::sync::ledger::Ledger;

// A grid for each edge.
#[derive(Drop)]
struct EdgeGrids<C: CornerSet, T: Copy> {
    rise: Grid<C, T>,
    fall: Grid<C, T>,
}

// What serves the rows of all instances: the values and the times of the edges of one.
#[derive(Drop)]
struct PathDraft<C: CornerSet> {
    values: EdgeGrids<C, Option<i128>>,
    times: EdgeGrids<C, Femto>,
}

impl<C: CornerSet, T: Copy> EdgeGrids<C, T> {
    // Grids of so many rows, with one value in each place.
    fn with_rows(alloc: Global, rows: usize, fill: T) -> Result<EdgeGrids<C, T>, OutOfMemory>
        ensures rise { IfOk result (λ grids. length grids.rise.values ≡ rows * C.COUNT) }
        ensures fall { IfOk result (λ grids. length grids.fall.values ≡ rows * C.COUNT) }
    {
        Ok(EdgeGrids {
            rise: Grid::with_rows(alloc, rows, fill)?,
            fall: Grid::with_rows(alloc, rows, fill)?,
        })
    }
}

impl<C: CornerSet> PathDraft<C> {
    // No values yet, and times of one row.
    fn new(alloc: Global) -> Result<PathDraft<C>, OutOfMemory>
        ensures rise { IfOk result (λ draft. length draft.times.rise.values ≡ C.COUNT) }
        ensures fall { IfOk result (λ draft. length draft.times.fall.values ≡ C.COUNT) }
    {
        let values = EdgeGrids::with_rows(alloc, 0, None)?;
        let times = EdgeGrids::with_rows(alloc, 1, Femto(0))?;
        Ok(PathDraft { values, times })
    }
}

// Puts the delays of the path that begins with an arc of an instance at an edge into a grid of one row, if there are such. The values
// are the largest delays of the paths of the instance.
#[tactic(auto, using(crate::proofs::EdgeRows::has_row, crate::proofs::EdgeRows::kept_printed, crate::proofs::EdgeRows::edge_is))]
fn put_edge<C: CornerSet>(
    design: &TimedNetlist<'_, C>,
    instance: usize,
    arc: usize,
    edge: Edge,
    values: &Grid<C, Option<i128>>,
    times: &mut Grid<C, Femto>,
) -> bool
    requires arc { arc < length (cell_arcs design.now instance) }
    requires first { path_of (cell_arcs design.now instance) arc ≡ arc }
    requires bests { AreBests design.now instance edge (length (cell_arcs design.now instance)) values.now.values }
    requires one_row { length times.old.values ≡ C.COUNT }
    ensures times { edge_delays design.now instance arc edge ≡ (if result then Some times.new.values else None) }
    ensures one_row { length times.new.values ≡ C.COUNT }
    ensures within { IsTrue result → AreWithin times.new.values }
{
    // as many corners as the grids have
    let _ = (design.corner_count(), instance, edge);
    put_times(values, arc, times)
}

// The grid, where it is asked for.
fn if_has<C: CornerSet>(has: bool, times: &Grid<C, Femto>) -> Option<&Grid<C, Femto>>
    requires one_row { length times.now.values ≡ C.COUNT }
    requires within { IsTrue has → AreWithin times.now.values }
    ensures times { edge_times result ≡ (if has then Some times.now.values else None) }
    ensures edge { IsEdge C.COUNT (edge_times result) }
{
    if has { Some(times) } else { None }
}

// Adds the row of the path of an arc of an instance.
fn add_row<C: CornerSet>(
    design: &TimedNetlist<'_, C>,
    at: ArcAt,
    rise: Option<&Grid<C, Femto>>,
    fall: Option<&Grid<C, Femto>>,
    rows: &mut Rows<C>,
) -> Result<(), OutOfMemory>
    requires instance { at.instance < length design.now.source.netlist.instances }
    requires arc { at.arc < length (cell_arcs design.now at.instance) }
    requires rise_edge { IsEdge C.COUNT (edge_times rise) }
    requires fall_edge { IsEdge C.COUNT (edge_times fall) }
    requires rise { edge_times rise ≡ edge_delays design.now at.instance at.arc Rise }
    requires fall { edge_times fall ≡ edge_delays design.now at.instance at.arc Fall }
    ensures { OnOk result (rows.new ≡ with_paths rows.old (path_row design.now at.instance at.arc ∷ [])) }
{
    let pins = design.pins_of(at);
    let path = PathNames {
        cell: design.cell_name(at.instance).bytes(),
        instance: design.netlist().instance_sdf(at.instance),
        from: design.pin_sdf(at.instance, pins.from),
        to: design.pin_sdf(at.instance, pins.to),
    };
    rows.put_path(path, rise, fall)
}

// Adds the row of the path that begins with an arc of an instance, if it has a delay at an edge. The values are the largest delays of the
// paths of the instance. The grids of times have one row each, which is used anew.
#[tactic(auto, using(crate::proofs::PathLists::no_row, crate::proofs::PathLists::one_row))]
fn add_path<C: CornerSet>(
    design: &TimedNetlist<'_, C>,
    at: ArcAt,
    values: &EdgeGrids<C, Option<i128>>,
    times: &mut EdgeGrids<C, Femto>,
    rows: &mut Rows<C>,
) -> Result<(), OutOfMemory>
    requires instance { at.instance < length design.now.source.netlist.instances }
    requires arc { at.arc < length (cell_arcs design.now at.instance) }
    requires first { path_of (cell_arcs design.now at.instance) at.arc ≡ at.arc }
    requires values { AreLargest design.now at.instance values.now.rise.values values.now.fall.values }
    requires rise { length times.old.rise.values ≡ C.COUNT }
    requires fall { length times.old.fall.values ≡ C.COUNT }
    ensures rows { OnOk result (rows.new ≡ with_paths rows.old (if_delayed (path_row design.now at.instance at.arc))) }
    ensures rise { length times.new.rise.values ≡ C.COUNT }
    ensures fall { length times.new.fall.values ≡ C.COUNT }
{
    let rise = put_edge(
        design,
        at.instance,
        at.arc,
        Edge::Rise,
        &values.rise,
        &mut times.rise,
    );
    let fall = put_edge(
        design,
        at.instance,
        at.arc,
        Edge::Fall,
        &values.fall,
        &mut times.fall,
    );
    if !rise && !fall {
        return Ok(());
    }
    let rise = if_has(rise, &times.rise);
    let fall = if_has(fall, &times.fall);
    add_row(design, at, rise, fall, rows)
}

// Adds the row of the path that begins with an arc of an instance, if one does. The arcs have these paths.
#[tactic(auto, using(crate::proofs::BestSteps::path_is, crate::proofs::PathLists::no_path, crate::proofs::PathLists::own_path))]
fn add_first<C: CornerSet>(
    design: &TimedNetlist<'_, C>,
    at: ArcAt,
    paths: &[usize],
    values: &EdgeGrids<C, Option<i128>>,
    times: &mut EdgeGrids<C, Femto>,
    rows: &mut Rows<C>,
) -> Result<(), OutOfMemory>
    requires instance { at.instance < length design.now.source.netlist.instances }
    requires arc { at.arc < length (cell_arcs design.now at.instance) }
    requires paths { ArePaths (cell_arcs design.now at.instance) paths.now }
    requires values { AreLargest design.now at.instance values.now.rise.values values.now.fall.values }
    requires rise { length times.old.rise.values ≡ C.COUNT }
    requires fall { length times.old.fall.values ≡ C.COUNT }
    ensures rows { OnOk result (rows.new ≡ with_paths rows.old (rows_at design.now at.instance at.arc)) }
    ensures rise { length times.new.rise.values ≡ C.COUNT }
    ensures fall { length times.new.fall.values ≡ C.COUNT }
{
    if paths[at.arc] != at.arc {
        return Ok(());
    }
    add_path(design, at, values, times, rows)
}

// Adds the rows of the paths of an instance, in order of their first arcs.
fn add_paths<C: CornerSet>(
    design: &TimedNetlist<'_, C>,
    instance: usize,
    paths: &[usize],
    values: &EdgeGrids<C, Option<i128>>,
    times: &mut EdgeGrids<C, Femto>,
    rows: &mut Rows<C>,
) -> Result<(), OutOfMemory>
    requires instance { instance < length design.now.source.netlist.instances }
    requires paths { ArePaths (cell_arcs design.now instance) paths.now }
    requires values { AreLargest design.now instance values.now.rise.values values.now.fall.values }
    requires rise { length times.old.rise.values ≡ C.COUNT }
    requires fall { length times.old.fall.values ≡ C.COUNT }
    ensures rows { OnOk result (rows.new ≡ with_paths rows.old (instance_rows design.now instance)) }
    ensures rise { length times.new.rise.values ≡ C.COUNT }
    ensures fall { length times.new.fall.values ≡ C.COUNT }
{
    for arc in 0..design.arc_count(instance) {
        let at = ArcAt { instance, arc };
        add_first(design, at, paths, values, times, rows)?;
    }
    Ok(())
}

// Adds the rows of an instance, whose arcs have these paths. The grids are used anew.
#[tactic(auto, using(crate::proofs::InstanceSteps::both_edges, crate::proofs::InstanceSteps::first_edge))]
fn add_instance<C: CornerSet, L: Ledger>(
    alloc: Global,
    design: &TimedNetlist<'_, C>,
    instance: usize,
    paths: &[usize],
    values: &mut EdgeGrids<C, Option<i128>>,
    times: &mut EdgeGrids<C, Femto>,
    rows: &mut Rows<C>,
    steps: &mut Steps<L>,
) -> Result<(), OutOfMemory>
    requires instance { instance < length design.now.source.netlist.instances }
    requires paths { ArePaths (cell_arcs design.now instance) paths.now }
    requires rise { length times.old.rise.values ≡ C.COUNT }
    requires fall { length times.old.fall.values ≡ C.COUNT }
    ensures rows { OnOk result (rows.new ≡ with_paths rows.old (instance_rows design.now instance)) }
    ensures rise { length times.new.rise.values ≡ C.COUNT }
    ensures fall { length times.new.fall.values ≡ C.COUNT }
    ensures steps { steps.new ≤ steps.old + 32 * (design.now.source.count * instance_edges design.now instance) }
{
    put_delays(
        alloc,
        design,
        instance,
        paths,
        Edge::Rise,
        &mut values.rise,
        steps,
    )?;
    put_delays(
        alloc,
        design,
        instance,
        paths,
        Edge::Fall,
        &mut values.fall,
        steps,
    )?;
    add_paths(design, instance, paths, values, times, rows)
}

// Adds the rows of all instances, in order. The arcs of the cells have these paths.
#[tactic(auto, using(crate::proofs::EndsThere::cell_there, crate::proofs::InstanceSteps::instance_next, crate::proofs::InstanceSteps::instances_part))]
fn add_instances<C: CornerSet, L: Ledger>(
    alloc: Global,
    design: &TimedNetlist<'_, C>,
    paths: &[ArcPaths],
    draft: &mut PathDraft<C>,
    rows: &mut Rows<C>,
    steps: &mut Steps<L>,
) -> Result<(), OutOfMemory>
    requires paths { HavePaths design.now.source.cells paths.now }
    requires rise { length draft.old.times.rise.values ≡ C.COUNT }
    requires fall { length draft.old.times.fall.values ≡ C.COUNT }
    ensures rows { OnOk result (rows.new ≡ with_paths rows.old (path_rows design.now)) }
    ensures steps { steps.new ≤ steps.old + 32 * (design.now.source.count * edges_in design.now.source) }
{
    for instance in 0..design.netlist().instance_count() {
        let own = paths[design.netlist().cell_of(instance)].as_slice();
        add_instance(
            alloc,
            design,
            instance,
            own,
            &mut draft.values,
            &mut draft.times,
            rows,
            steps,
        )?;
    }
    Ok(())
}

/// Adds the rows of the paths of all instances, in order. Each arc that has an edge is looked up there once at each corner, in at most
/// 32 steps.
pub(crate) fn add_all_paths<C: CornerSet, L: Ledger>(
    alloc: Global,
    design: &TimedNetlist<'_, C>,
    rows: &mut Rows<C>,
    steps: &mut Steps<L>,
) -> Result<(), OutOfMemory>
    ensures rows { OnOk result (rows.new ≡ with_paths rows.old (path_rows design.now)) }
    ensures shaped { OnOk result (AreShaped design.now.source.count design.now.source.cells) }
    ensures steps { steps.new ≤ steps.old + 32 * (design.now.source.count * edges_in design.now.source) }
{
    // as many corners as the cells have
    let _ = design.corner_count();
    let paths = paths_of_all(alloc, design.cells())?;
    let mut draft = PathDraft::new(alloc)?;
    add_instances(alloc, design, &paths, &mut draft, rows, steps)
}
