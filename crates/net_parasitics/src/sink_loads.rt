//! The loads of sinks.
ghost use Rattle.std.specs.Prelude.{◌≡◌, ◌<◌, ◌≤◌, ◌^◌, length, sum_by, All};
ghost use Rattle.delay_units.specs.Bounds.{most_farads};
ghost use Rattle.netlist_link.specs.FlatNetlist.{net_at};
ghost use Rattle.rc_tree.specs.Arenas.{most_elements};
ghost use Rattle.net_parasitics.specs.NetPins.{IsEnd, end_load, end_loads};

use crate::inputs::NetInputs;
use corner_set::{CornerSet, Grid, corner_at};
use delay_units::Farads;
use netlist_link::End;

impl<'a, 'r, 'f, C: CornerSet> NetInputs<'a, 'r, 'f, C> {
    /// The load of a sink at a corner, at most a nanofarad.
    pub fn end_load(&self, end: End, corner: C::Index) -> Farads
        requires { IsEnd self.now.netlist self.now.cells end }
        ensures load { result ≡ end_load self.now.netlist self.now.cells self.now.port_load (C.number_of corner) end }
        ensures most { result.0 ≤ most_farads }
    {
        match end {
            End::Port(_) => self.port_load,
            End::Pin { instance, pin } => self.pin(instance, pin, corner).cap,
        }
    }

    /// Puts the load of a sink at each corner into the one row of a grid.
    pub fn put_loads(&self, end: End, row: &mut Grid<C, Farads>)
        requires end { IsEnd self.now.netlist self.now.cells end }
        requires one_row { length row.old.values ≡ C.COUNT }
        ensures loads { row.new.values ≡ end_loads self.now.netlist self.now.cells C.COUNT self.now.port_load end }
        ensures most { All (λ load. load.0 ≤ most_farads) row.new.values }
    {
        for number in 0..C::COUNT {
            let corner = corner_at::<C>(number);
            row.set(0, corner, self.end_load(end, corner));
        }
    }

    /// The loads of all sinks of a net at a corner, taken together. The sinks are not too many for one net.
    pub fn load_sum(&self, net: usize, corner: C::Index) -> Farads
        requires net { net < length self.now.netlist.nets }
        requires few { length (net_at self.now.netlist net).sinks ≤ most_elements }
        ensures { result.0 ≡ sum_by (λ sink. (end_load self.now.netlist self.now.cells self.now.port_load (C.number_of corner) sink).0)
            (net_at self.now.netlist net).sinks }
    {
        let mut sum = 0;
        for sink in 0..self.linked.netlist.sink_count(net) {
            sum += self.end_load(self.sink(net, sink), corner).0;
        }
        Farads(sum)
    }
}
