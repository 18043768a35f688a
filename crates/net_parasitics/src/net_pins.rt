//! The pins of a net.
ghost use Rattle.std.specs.Prelude.{◌≡◌, ◌+◌, ◌<◌, length, take, OnOk};
ghost use Rattle.netlist_link.specs.FlatNetlist.{net_at};
ghost use Rattle.net_parasitics.specs.NetPins.{pins_to, net_pins};
ghost use Rattle.net_parasitics.specs.NetTrees.{IsWired};

use crate::inputs::NetInputs;
use corner_set::{CornerSet, Grid};
use delay_units::Farads;
use edge_io::OutOfMemory;
use netlist_link::End;
use rc_tree::PinLoads;

impl<'a, 'r, 'f, C: CornerSet> NetInputs<'a, 'r, 'f, C> {
    /// Puts the pins of a net in the place of those of another, in the memory that they have where that suffices. The grid has one row,
    /// which is used anew. No name is copied.
    pub fn put_pins<'p>(
        &'p self,
        net: usize,
        driver: End,
        row: &mut Grid<C, Farads>,
        pins: &mut PinLoads<'p, C>,
    ) -> Result<(), OutOfMemory>
        requires wired { IsWired self.now.netlist net driver }
        requires one_row { length row.old.values ≡ C.COUNT }
        ensures pins { OnOk result (pins.new ≡ net_pins self.now net driver) }
        ensures one_row { length row.new.values ≡ C.COUNT }
    {
        self.sound();
        pins.restart(self.end_name(driver));
        for sink in 0..self.linked.netlist.sink_count(net) {
            self.add_sink(net, driver, sink, row, pins)?;
        }
        Ok(())
    }

    // Adds the next sink to the pins of a net.
    fn add_sink<'p>(
        &'p self,
        net: usize,
        driver: End,
        sink: usize,
        row: &mut Grid<C, Farads>,
        pins: &mut PinLoads<'p, C>,
    ) -> Result<(), OutOfMemory>
        requires wired { IsWired self.now.netlist net driver }
        requires within { sink < length (net_at self.now.netlist net).sinks }
        requires one_row { length row.old.values ≡ C.COUNT }
        requires pins { pins.old ≡ pins_to self.now driver (take sink (net_at self.now.netlist net).sinks) }
        ensures pins { OnOk result (pins.new ≡ pins_to self.now driver (take (sink + 1) (net_at self.now.netlist net).sinks)) }
        ensures one_row { length row.new.values ≡ C.COUNT }
    {
        self.sound();
        let end = self.sink(net, sink);
        self.pins_differ(end);
        self.put_loads(end, row);
        pins.add(self.end_name(end), row, 0)
    }
}
