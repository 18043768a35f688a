//! A design with its delays.
ghost use Rattle.std.specs.Prelude.{◌≡◌};
ghost use Rattle.delay_core.specs.AnnotatedDesigns.{PartsAgree};

use cell_models::CellSets;
use corner_set::CornerSet;
use net_delays::NetDelays;
use netlist_link::Netlist;
use sdf_writer::Rows;
use slew_order::Slews;
use std::marker::Model;

/// A design with its delays: the rows that annotate it, its netlist with its cells, the loads and Elmore sums of its nets, and the slews
/// of its pins. The parts agree: the slews are those of the netlist, the cells, the loads and the Elmore sums, and so are the rows.
#[derive(Drop)]
pub struct Annotated<C: CornerSet> {
    pub rows: Rows<C>,
    pub netlist: Netlist,
    pub cells: CellSets<C>,
    pub nets: NetDelays<C>,
    pub slews: Slews<C>,
}

impl<C: CornerSet> Model for Annotated<C> {
    ghost use Rattle.delay_core.specs.AnnotatedDesigns.{AnnotatedDesign, PartsAgree};

    ghost Value = { AnnotatedDesign };

    ghost view = { λ a. record { rows = a.rows; netlist = a.netlist; cells = a.cells; nets = a.nets; slews = a.slews } };

    ghost invariant = { λ a. PartsAgree C.COUNT
        (record { rows = a.rows; netlist = a.netlist; cells = a.cells; nets = a.nets; slews = a.slews }) };
}

impl<C: CornerSet> Annotated<C> {
    /// The rows alone, and that they are those of parts that agree. The parts are let go of.
    pub fn into_rows(self) -> Rows<C>
        ensures rows { result ≡ self.rows }
        ensures agrees { PartsAgree C.COUNT self }
    {
        self.rows
    }
}
