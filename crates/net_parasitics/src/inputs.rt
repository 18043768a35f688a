//! What the parasitics of a design's nets are taken from.
ghost use Rattle.std.specs.Prelude.{◌≡◌, ◌<◌, length, slice_get, Some};
ghost use Rattle.netlist_link.specs.FlatNetlist.{net_at};
ghost use Rattle.net_parasitics.specs.Inputs.{AreSound};
ghost use Rattle.net_parasitics.specs.NetPins.{IsEnd};

use corner_set::CornerSet;
use delay_units::Farads;
use netlist_link::{End, LinkedNetlist};
use spef_nets::Sections;
use std::marker::Model;

/// A flat netlist with its cells, the nets of the sections of a SPEF file, and the load of each output port. Contracts see these.
#[derive(Drop)]
pub struct NetInputs<'a, 'r, 'f, C: CornerSet> {
    pub linked: &'a LinkedNetlist<C>,
    pub sections: &'a Sections<'r, 'f, C>,
    pub port_load: Farads,
}

impl<'a, 'r, 'f, C: CornerSet> Model for NetInputs<'a, 'r, 'f, C> {
    ghost use Rattle.net_parasitics.specs.Inputs.{Inputs, AreSound};

    ghost Value = { Inputs };

    ghost view = { λ i. record {
      count = C.COUNT;
      netlist = i.linked.now.netlist;
      cells = i.linked.now.cells;
      sections = i.sections.now;
      port_load = i.port_load;
    } };

    ghost invariant = { λ i. AreSound (record {
      count = C.COUNT;
      netlist = i.linked.now.netlist;
      cells = i.linked.now.cells;
      sections = i.sections.now;
      port_load = i.port_load;
    }) };
}

impl<'a, 'r, 'f, C: CornerSet> NetInputs<'a, 'r, 'f, C> {
    /// What is kept of them: the netlist is linked with its cells, no two instances or bits of ports have one name, and no load of a
    /// pin is past a nanofarad. It does nothing when it is called.
    pub fn sound(&self)
        ensures sound { AreSound self.now }
        ensures count { self.now.count ≡ C.COUNT }
    {
        let _ = &self.linked;
    }

    /// A sink of a net.
    pub fn sink(&self, net: usize, sink: usize) -> End
        requires net { net < length self.now.netlist.nets }
        requires within { sink < length (net_at self.now.netlist net).sinks }
        ensures sink { slice_get (net_at self.now.netlist net).sinks sink ≡ Some result }
        ensures end { IsEnd self.now.netlist self.now.cells result }
    {
        self.linked.netlist.sink(net, sink)
    }
}
