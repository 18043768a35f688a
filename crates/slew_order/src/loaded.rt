//! A netlist with the loads and Elmore sums of its nets.
ghost use Rattle.net_delays.specs.NetTimes.{Fits};

use corner_set::CornerSet;
use net_delays::NetDelays;
use netlist_link::LinkedNetlist;

/// A netlist with its cells, and the loads of its nets and the Elmore sums of their sinks.
#[derive(Drop)]
pub struct LoadedNetlist<'a, C: CornerSet> {
    pub linked: &'a LinkedNetlist<C>,
    pub nets: &'a NetDelays<C>,
    pub ghost fits: { Fits linked.now.netlist nets.now },
}
