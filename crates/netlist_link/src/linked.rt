//! A flat netlist with the cells that it is linked with.
ghost use Rattle.netlist_link.specs.Linked.{IsLinked};

use crate::netlist::Netlist;
use cell_models::CellSets;
use corner_set::CornerSet;

/// A flat netlist, and the cells that it is linked with.
#[derive(Drop)]
pub struct LinkedNetlist<C: CornerSet> {
    pub netlist: Netlist,
    pub cells: CellSets<C>,
    pub ghost linked: { IsLinked cells netlist },
}
