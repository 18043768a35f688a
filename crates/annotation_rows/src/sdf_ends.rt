//! How the ends of nets are spelled in SDF (IEEE 1497-2001).
ghost use Rattle.std.specs.Prelude.{◌≡◌, ◌<◌, length};
ghost use Rattle.sdf_writer.specs.WireEnds.{end_name};
ghost use Rattle.annotation_rows.specs.SdfEnds.{IsEndThere, end_sdf, pin_count, pin_sdf};

use crate::spelled_netlist::SpelledNetlist;
use corner_set::CornerSet;
use netlist_link::End;
use sdf_writer::WireEnd;

/// The name of a pin of an instance as one part of a path.
#[tactic(auto, using(crate::proofs::EndsThere::cell_there))]
pub(crate) fn pin_sdf<'c, C: CornerSet>(
    spelled: &'c SpelledNetlist<'_, C>,
    instance: usize,
    pin: usize,
) -> &'c [u8]
    requires instance { instance < length spelled.now.linked.now.netlist.instances }
    requires pin { pin < pin_count spelled.now.linked.now.cells spelled.now.linked.now.netlist instance }
    ensures { result.now ≡ pin_sdf spelled.now.linked.now.cells spelled.now.linked.now.netlist instance pin }
{
    spelled.pin(spelled.linked.netlist.cell_of(instance), pin)
}

/// The name of an end of a net.
pub(crate) fn end_sdf<'n, C: CornerSet>(spelled: &'n SpelledNetlist<'_, C>, end: End) -> WireEnd<'n>
    requires there { IsEndThere spelled.now.linked.now.cells spelled.now.linked.now.netlist end }
    ensures { end_name result ≡ end_sdf spelled.now.linked.now.cells spelled.now.linked.now.netlist end }
{
    match end {
        End::Port(port) => WireEnd::Name(spelled.linked.netlist.port_sdf(port).bytes()),
        End::Pin { instance, pin } => WireEnd::Pin {
            instance: spelled.linked.netlist.instance_sdf(instance),
            pin: pin_sdf(spelled, instance, pin),
        },
    }
}
