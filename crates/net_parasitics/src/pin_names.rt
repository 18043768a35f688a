//! The names of pins and ports as nodes of a SPEF file.
ghost use Rattle.std.specs.Prelude.{◌≡◌, ◌≤◌};
ghost use Rattle.delay_units.specs.Bounds.{most_farads};
ghost use Rattle.netlist_link.specs.declared.ends.End.TheVariants as end;
ghost use Rattle.rc_tree.specs.PinNames.{pin_name};
ghost use Rattle.net_parasitics.specs.NetPins.{IsEnd, PinsDiffer, pin_at, end_name};

use crate::inputs::NetInputs;
use cell_models::Pin;
use corner_set::{CornerSet, first_corner};
use netlist_link::End;
use rc_tree::PinName;

impl<'a, 'r, 'f, C: CornerSet> NetInputs<'a, 'r, 'f, C> {
    /// A pin of an instance as it is at a corner.
    pub fn pin(&self, instance: usize, pin: usize, corner: C::Index) -> &Pin
        requires { IsEnd self.now.netlist self.now.cells (end.Pin instance pin) }
        ensures pin { result.now ≡ pin_at self.now.netlist self.now.cells (C.number_of corner) instance pin }
        ensures most { result.now.cap.0 ≤ most_farads }
        ensures name { result.now.name ≡ (pin_at self.now.netlist self.now.cells 0 instance pin).name }
        ensures apart { PinsDiffer self.now.netlist self.now.cells (end.Pin instance pin) }
    {
        let models = self.linked.cells.set(self.linked.netlist.cell_of(instance));
        // what it keeps
        let _ = models.pin_count();
        models.pin(pin, corner)
    }

    /// No two pins of the cell of an end have one name. It does nothing when it is called.
    pub fn pins_differ(&self, end: End)
        requires { IsEnd self.now.netlist self.now.cells end }
        ensures { PinsDiffer self.now.netlist self.now.cells end }
    {
        if let End::Pin { instance, pin } = end {
            let _ = self.pin(instance, pin, first_corner::<C>());
        }
    }

    /// The name of an end as a node. Nothing is copied.
    pub fn end_name(&self, end: End) -> PinName<'_>
        requires { IsEnd self.now.netlist self.now.cells end }
        ensures { pin_name result ≡ end_name self.now.netlist self.now.cells end }
    {
        match end {
            End::Port(port) => self.port_name(port),
            End::Pin { instance, pin } => self.pin_name(instance, pin),
        }
    }

    // The name of a bit of a port.
    fn port_name(&self, port: usize) -> PinName<'_>
        requires { IsEnd self.now.netlist self.now.cells (end.Port port) }
        ensures { pin_name result ≡ end_name self.now.netlist self.now.cells (end.Port port) }
    {
        PinName {
            head: self.linked.netlist.port_text(port).bytes(),
            tail: None,
            head_sdf: self.linked.netlist.port_sdf(port).bytes(),
        }
    }

    // The name of a pin of an instance.
    fn pin_name(&self, instance: usize, pin: usize) -> PinName<'_>
        requires { IsEnd self.now.netlist self.now.cells (end.Pin instance pin) }
        ensures { pin_name result ≡ end_name self.now.netlist self.now.cells (end.Pin instance pin) }
    {
        let tail = self.pin(instance, pin, first_corner::<C>()).name.bytes();
        PinName {
            head: self.linked.netlist.instance_text(instance),
            tail: Some(tail),
            head_sdf: self.linked.netlist.instance_sdf(instance),
        }
    }
}
