//! The delays and transitions of a cell's arcs at one slew and one load.
ghost use Rattle.std.specs.Prelude.{◌≡◌, ◌+◌, ◌*◌, ◌<◌, ◌≤◌, [], ◌∷◌, ◌++◌, ℤ, pos, ◌≤ℤ◌, length, unsigned_abs, IfOk, IfErr, OnOk};
ghost use Rattle.verdict_phases.specs.Phases.{FollowsNoFile};
ghost use Rattle.nldm_lookup.specs.Axes.{most};
ghost use Rattle.refusals.specs.Refused.{OnRefusal};
ghost use Rattle.command_rows.specs.ArcRows.{arc_edges, edge_of, edges_of, IsEdgeEnd, IsEdgeRefusal, IsFirstRefused, AddsEdges, CellGives};
ghost use Rattle.command_rows.specs.Looking.{IsLooked, IsRowOf};

use cell_models::{Edge, Part};
use corner_set::Beyond;
use delay_units::{Atto, Farads};
use edge_io::{OutOfMemory, Steps, Text};
use nldm_lookup::{Grain, LookupEnd};
use refusals::{ArcNames, Refusal, refused_look_up};
use std::alloc::Global;
use std::marker::Model;
use std::sync::ledger::Ledger;
use timing_arcs::{Arc, Cell, EdgeTables, Pin};
use verdict_phases::NoFileEnd;

/// Where tables are looked up: a slew of the input, from 0 to a microsecond, and a load of the output; and what is done past the end of
/// an axis.
#[derive(Clone, Copy)]
pub struct Point {
    pub slew: Atto,
    pub load: Farads,
    pub beyond: Beyond,
    pub ghost not_negative: { pos 0 ≤ℤ slew.0 },
    pub ghost small: { slew.0 ≤ℤ pos most },
}

impl Point {
    /// The slew of so many attoseconds, and the load of so many grains of 10^-21 F.
    pub fn new(slew: u64, load: u64, beyond: Beyond) -> Point
        requires { slew ≤ most }
        ensures slew { unsigned_abs result.slew.0 ≡ slew }
        ensures load { result.load.0 ≡ load }
        ensures beyond { result.beyond ≡ beyond }
    {
        Point {
            slew: Atto(slew as i64),
            load: Farads(load),
            beyond,
        }
    }
}

/// What the tables of an edge say.
#[derive(Clone, Copy)]
struct Looked {
    /// In femtoseconds.
    delay: i64,
    slew: Atto,
}

/// A table of an edge that has no value, and why.
#[derive(Clone, Copy)]
struct EdgeEnd {
    part: Part,
    end: LookupEnd,
}

/// An edge of an arc: the pins that it leads from and to, its delay in femtoseconds, and the transition of the output.
#[derive(Drop)]
pub struct ArcRow {
    pub from: Text,
    pub to: Text,
    pub edge: Edge,
    pub delay: i64,
    pub slew: Atto,
}

/// Rows of arcs, in order. Contracts see the list of them.
#[derive(Drop)]
pub struct ArcRows {
    rows: Vec<ArcRow>,
}

impl Model for ArcRows {
    ghost use Rattle.std.specs.Prelude.{List};
    ghost use Rattle.command_rows.specs.declared.arc_rows.ArcRow.{ArcRow};

    ghost Value = { List ArcRow };

    ghost view = { λ rows. rows.rows.items };
}

impl ArcRows {
    /// No rows yet. It takes no memory.
    fn new(alloc: Global) -> ArcRows
        ensures { result ≡ [] }
    {
        ArcRows {
            rows: Vec::new(alloc),
        }
    }

    // Puts a row at the end.
    fn push(&mut self, row: ArcRow) -> Result<(), OutOfMemory>
        ensures { OnOk result (self.new ≡ self.old ++ row ∷ []) }
    {
        match self.rows.push(row) {
            Ok(()) => Ok(()),
            Err(_) => Err(OutOfMemory),
        }
    }

    /// The rows.
    pub fn as_slice(&self) -> &[ArcRow]
        ensures { result.now ≡ self.now }
    {
        self.rows.as_slice()
    }
}

// What the tables of an edge say at a point, or the first of them that has no value there.
#[tactic(auto, using(crate::specs::ArcRows::at_delay, crate::specs::ArcRows::at_transition))]
fn look_up<L: Ledger>(
    tables: &EdgeTables,
    at: Point,
    steps: &mut Steps<L>,
) -> Result<Looked, EdgeEnd>
    ensures ok { IfOk result (IsLooked (unsigned_abs at.slew.0) at.load.0 at.beyond tables.now) }
    ensures end { IfErr result (λ end. IsEdgeEnd (unsigned_abs at.slew.0) at.load.0 at.beyond tables.now end.part end.end) }
    ensures forward { steps.old ≤ steps.new }
    ensures steps { steps.new ≤ steps.old + 64 }
{
    let table = &tables.delay;
    let delay = match table.lookup(at.slew, at.load, Grain::Femto, at.beyond, steps) {
        Ok(delay) => delay,
        Err(end) => {
            return Err(EdgeEnd {
                part: Part::Delay,
                end,
            });
        }
    };
    let table = &tables.slew;
    match table.lookup(at.slew, at.load, Grain::Atto, at.beyond, steps) {
        Ok(slew) => Ok(Looked {
            delay,
            slew: Atto(slew),
        }),
        Err(end) => Err(EdgeEnd {
            part: Part::Transition,
            end,
        }),
    }
}

// The refusal of an edge with a table that has no value at a point, at the corner of this number.
fn refusal_of(
    alloc: Global,
    cell: &Text,
    pins: &[Pin],
    arc: &Arc,
    edge: Edge,
    corner: usize,
    end: EdgeEnd,
) -> Result<Refusal, OutOfMemory>
    requires from { arc.now.from < length pins.now }
    requires to { arc.now.to < length pins.now }
    ensures { IfOk result (IsEdgeRefusal corner cell.now pins.now arc.now edge end.part end.end) }
{
    let instance = Text::from_bytes(alloc, cell.bytes())?;
    let from = Text::from_bytes(alloc, pins[arc.from].name.bytes())?;
    let to = Text::from_bytes(alloc, pins[arc.to].name.bytes())?;
    let names = ArcNames { instance, from, to };
    Ok(refused_look_up(names, edge, corner, end.part, end.end))
}

// The row of an edge.
fn row_of(
    alloc: Global,
    pins: &[Pin],
    arc: &Arc,
    edge: Edge,
    looked: Looked,
) -> Result<ArcRow, OutOfMemory>
    requires from { arc.now.from < length pins.now }
    requires to { arc.now.to < length pins.now }
    ensures { IfOk result (IsRowOf pins.now arc.now edge looked) }
{
    Ok(ArcRow {
        from: Text::from_bytes(alloc, pins[arc.from].name.bytes())?,
        to: Text::from_bytes(alloc, pins[arc.to].name.bytes())?,
        edge,
        delay: looked.delay,
        slew: looked.slew,
    })
}

// Adds the row of an edge, if the arc has it.
fn add_edge<L: Ledger>(
    alloc: Global,
    cell: &Text,
    pins: &[Pin],
    arc: &Arc,
    edge: Edge,
    tables: &Option<EdgeTables>,
    corner: usize,
    at: Point,
    rows: &mut ArcRows,
    steps: &mut Steps<L>,
) -> Result<(), NoFileEnd<Refusal>>
    requires from { arc.now.from < length pins.now }
    requires to { arc.now.to < length pins.now }
    ensures ok { OnOk result
        (AddsEdges pins.now (unsigned_abs at.slew.0) at.load.0 at.beyond (edge_of arc.now edge tables.now) rows.old rows.new) }
    ensures refused { OnRefusal result
        (IsFirstRefused corner cell.now pins.now (unsigned_abs at.slew.0) at.load.0 at.beyond (edge_of arc.now edge tables.now)) }
    ensures forward { steps.old ≤ steps.new }
    ensures steps { steps.new ≤ steps.old + 64 * length (edge_of arc.now edge tables.now) }
{
    let Some(tables) = tables else {
        return Ok(());
    };
    match look_up(tables, at, steps) {
        Ok(looked) => {
            let row = row_of(alloc, pins, arc, edge, looked)?;
            rows.push(row)?;
            Ok(())
        }
        Err(end) => {
            let refusal = refusal_of(alloc, cell, pins, arc, edge, corner, end)?;
            Err(NoFileEnd::Refused(refusal))
        }
    }
}

// Adds the rows of an arc: that of its rise, and then that of its fall, if it has them.
fn add_arc<L: Ledger>(
    alloc: Global,
    cell: &Text,
    pins: &[Pin],
    arc: &Arc,
    corner: usize,
    at: Point,
    rows: &mut ArcRows,
    steps: &mut Steps<L>,
) -> Result<(), NoFileEnd<Refusal>>
    requires from { arc.now.from < length pins.now }
    requires to { arc.now.to < length pins.now }
    ensures ok { OnOk result (AddsEdges pins.now (unsigned_abs at.slew.0) at.load.0 at.beyond (edges_of arc.now) rows.old rows.new) }
    ensures refused { OnRefusal result
        (IsFirstRefused corner cell.now pins.now (unsigned_abs at.slew.0) at.load.0 at.beyond (edges_of arc.now)) }
    ensures forward { steps.old ≤ steps.new }
    ensures steps { steps.new ≤ steps.old + 64 * length (edges_of arc.now) }
{
    add_edge(
        alloc,
        cell,
        pins,
        arc,
        Edge::Rise,
        &arc.rise,
        corner,
        at,
        rows,
        steps,
    )?;
    add_edge(
        alloc,
        cell,
        pins,
        arc,
        Edge::Fall,
        &arc.fall,
        corner,
        at,
        rows,
        steps,
    )?;
    Ok(())
}

/// The rows of a cell at a corner and a point: of each arc in order its rise and then its fall, if it has them. A cell is refused for the
/// first of them with a table that has no value there. At most 64 steps for each.
pub fn arc_rows<L: Ledger>(
    alloc: Global,
    name: &Text,
    cell: &Cell,
    corner: usize,
    at: Point,
    steps: &mut Steps<L>,
) -> Result<ArcRows, NoFileEnd<Refusal>>
    ensures follows { FollowsNoFile (CellGives corner name.now cell.now (unsigned_abs at.slew.0) at.load.0 at.beyond) result }
    ensures forward { steps.old ≤ steps.new }
    ensures steps { steps.new ≤ steps.old + 64 * length (arc_edges cell.now.arcs) }
{
    let pins = cell.pins();
    let mut rows = ArcRows::new(alloc);
    for arc in cell.arcs() {
        add_arc(alloc, name, pins, arc, corner, at, &mut rows, steps)?;
    }
    Ok(rows)
}
