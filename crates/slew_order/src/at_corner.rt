//! A design at a corner.
ghost use Rattle.std.specs.Prelude.{◌<◌, length};
ghost use Rattle.slew_order.specs.Timings.{arcs_in, look_at, wire_at};

use crate::design::Design;
use cell_models::Edge;
use corner_set::CornerSet;
use edge_io::Steps;
use slew_states::Timing;
use std::sync::ledger::Ledger;

/// What the arcs and wires of a design make of a slew at a corner.
#[derive(Drop)]
pub(crate) struct AtCorner<'d, 'a, C: CornerSet> {
    pub(crate) design: &'d Design<'a, C>,
    pub(crate) corner: C::Index,
}

impl<'d, 'a, C: CornerSet> Timing for AtCorner<'d, 'a, C> {
    ghost looks = { λ timing. look_at timing.design.now (C.number_of timing.corner) };

    ghost wires = { λ timing. wire_at timing.design.now (C.number_of timing.corner) };

    ghost can_look = { λ timing arc _. arc < length (arcs_in timing.design.now) };

    ghost can_wire = { λ timing arc. arc < length (arcs_in timing.design.now) };

    fn look<L: Ledger>(
        &self,
        arc: usize,
        edge: Edge,
        slew: u64,
        steps: &mut Steps<L>,
    ) -> Option<u64> {
        self.design.transition(arc, edge, slew, self.corner, steps)
    }

    fn wire(&self, arc: usize, slew: u64) -> Option<u64> {
        self.design.wire(arc, slew, self.corner)
    }
}
