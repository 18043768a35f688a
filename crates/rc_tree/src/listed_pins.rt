//! The pins of a net that are the connections of its section.
ghost use Rattle.std.specs.Prelude.{◌≡◌, ◌+◌, ◌^◌, ◌<◌, length, IfOk};
ghost use Rattle.spef_nets.specs.NodeNames.{IsSdfAt};
ghost use Rattle.rc_tree.specs.ListedPins.{listed_pins, other_place};

use corner_set::CornerSet;
use edge_io::{OutOfMemory, Text};
use spef_nets::Net;
use std::alloc::Global;

/// The pins of a net that are the connections of its section: the one at this place drives, all others are sinks, in order.
#[derive(Drop)]
pub struct ListedPins {
    pub driver: usize,
}

impl ListedPins {
    /// The place of the connection of a sink.
    pub(crate) fn place(&self, sink: usize) -> usize
        requires { sink + 1 < 2 ^ 64 }
        ensures { result ≡ other_place self.now.driver sink }
    {
        if sink < self.driver { sink } else { sink + 1 }
    }

    /// How many sinks there are.
    pub fn len<C: CornerSet>(&self, section: &Net<C>) -> usize
        ensures { result ≡ length (listed_pins C.COUNT section.now self.now.driver).sinks }
    {
        let conns = section.conn_count();
        if self.driver < conns {
            conns - 1
        } else {
            conns
        }
    }

    /// The driver as SDF spells it.
    pub fn driver_sdf<C: CornerSet>(
        &self,
        alloc: Global,
        section: &Net<C>,
    ) -> Result<Text, OutOfMemory>
        requires { self.now.driver < length section.now.conns }
        ensures { IfOk result (λ sdf. sdf ≡ (listed_pins C.COUNT section.now self.now.driver).driver.sdf) }
    {
        let sdf = section.node_sdf(alloc, section.conn(self.driver).node)?;
        Ok(sdf)
    }

    /// A sink as SDF spells it.
    pub fn sink_sdf<C: CornerSet>(
        &self,
        alloc: Global,
        section: &Net<C>,
        sink: usize,
    ) -> Result<Text, OutOfMemory>
        requires within { sink < length (listed_pins C.COUNT section.now self.now.driver).sinks }
        requires fits { sink + 1 < 2 ^ 64 }
        ensures { IfOk result (IsSdfAt (listed_pins C.COUNT section.now self.now.driver).sinks sink) }
    {
        let sdf = section.node_sdf(alloc, section.conn(self.place(sink)).node)?;
        Ok(sdf)
    }
}
