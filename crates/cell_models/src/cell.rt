//! The timing model of a cell.
ghost use Rattle.std.specs.Prelude.{◌≡◌, IfOk};
ghost use Rattle.cell_models.specs.Cells.{TimedCell, IsCell};

use delay_units::Farads;
use edge_io::{OutOfMemory, Text};
use nldm_lookup::Table;
use std::marker::Model;

/// Where a pin's value comes from (Liberty, `direction`).
#[derive(Clone, Copy)]
pub enum Direction {
    Input,
    Output,
    Inout,
    Internal,
}

/// Which edges of the input an edge of the output follows (Liberty, `timing_sense` and `timing_type`).
#[derive(Clone, Copy)]
pub enum ArcKind {
    /// The same edge.
    Positive,
    /// The other edge.
    Negative,
    /// Either edge.
    Both,
    /// The rise, for either edge of the output.
    RisingEdge,
    /// The fall, for either edge of the output.
    FallingEdge,
}

/// A pin of a cell. The capacitance of a pin that is no input is 0.
#[derive(Drop)]
pub struct Pin {
    pub name: Text,
    pub direction: Direction,
    pub cap: Farads,
}

/// The tables of one edge of an output: the delay to it, and its transition, in attoseconds over slew and load.
#[derive(Drop)]
pub struct EdgeTables {
    pub delay: Table,
    pub slew: Table,
}

impl EdgeTables {
    /// The same tables, which are shared.
    pub fn copied(&self) -> Result<EdgeTables, OutOfMemory>
        ensures { IfOk result (λ tables. tables ≡ self.now) }
    {
        Ok(EdgeTables {
            delay: self.delay.copied()?,
            slew: self.slew.copied()?,
        })
    }
}

/// A delay arc, from the place of an input pin to the place of an output pin, with the tables of the edges that it has.
#[derive(Drop)]
pub struct Arc {
    pub from: usize,
    pub to: usize,
    pub kind: ArcKind,
    pub rise: Option<EdgeTables>,
    pub fall: Option<EdgeTables>,
}

/// The timing model of a cell. Contracts see the list of its pins and the list of its arcs: no two pins have one name, each arc
/// leads from an input pin to an output pin and has a rise or a fall, and no transition is negative.
#[derive(Drop)]
pub struct Cell {
    pins: Vec<Pin>,
    arcs: Vec<Arc>,
}

impl Model for Cell {
    ghost use Rattle.cell_models.specs.Cells.{TimedCell, IsCell};

    ghost Value = { TimedCell };

    ghost view = { λ cell. record { pins = cell.pins.items; arcs = cell.arcs.items } };

    ghost invariant = { λ cell. IsCell (record { pins = cell.pins.items; arcs = cell.arcs.items }) };
}

impl Cell {
    /// The cell of these pins and arcs.
    pub fn of(pins: Vec<Pin>, arcs: Vec<Arc>) -> Cell
        requires { IsCell (record { pins = pins.items; arcs = arcs.items }) }
        ensures { result ≡ record { pins = pins.items; arcs = arcs.items } }
    {
        Cell { pins, arcs }
    }

    /// The pins, in the order of their groups and names in the library.
    pub fn pins(&self) -> &[Pin]
        ensures pins { result.now ≡ self.now.pins }
        ensures whole { IsCell self.now }
    {
        self.pins.as_slice()
    }

    /// The arcs, by output pin, then by `timing` group, then by the order in which a group names its related pins.
    pub fn arcs(&self) -> &[Arc]
        ensures arcs { result.now ≡ self.now.arcs }
        ensures whole { IsCell self.now }
    {
        self.arcs.as_slice()
    }
}
