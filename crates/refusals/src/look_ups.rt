//! The refusal of a look-up in a table of an arc's edge.
ghost use Rattle.std.specs.Prelude.{◌≡◌};
ghost use Rattle.refusals.specs.LookUps.{look_up_refusal};

use crate::refusal::Refusal;
use cell_models::{Edge, Part};
use edge_io::Text;
use nldm_lookup::LookupEnd;

/// The names of an arc: that of its instance, and those of the pins that it leads from and to.
#[derive(Drop)]
pub struct ArcNames {
    pub instance: Text,
    pub from: Text,
    pub to: Text,
}

/// The refusal of an edge of an arc where a table of it has no value at a corner.
pub fn refused_look_up(
    names: ArcNames,
    edge: Edge,
    corner: usize,
    part: Part,
    end: LookupEnd,
) -> Refusal
    ensures { result ≡ look_up_refusal names edge corner part end }
{
    match end {
        LookupEnd::Outside(outside) => Refusal::Outside {
            instance: names.instance,
            from: names.from,
            to: names.to,
            edge,
            corner,
            part,
            axis: outside.axis,
            value: outside.value,
        },
        LookupEnd::PastTime => Refusal::PastTime {
            instance: names.instance,
            from: names.from,
            to: names.to,
            edge,
            corner,
            part,
        },
    }
}
