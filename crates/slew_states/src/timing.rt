//! What an arc and a wire make of a slew.
ghost use Rattle.std.specs.Prelude.{◌≡◌, ℕ, ◌+◌, ◌≤◌, IfSome};
ghost use Rattle.cell_models.specs.declared.edge.Edge.{Edge};
ghost use Rattle.slew_states.specs.PinState.{Look, Wire, most};

use cell_models::Edge;
use edge_io::Steps;
use std::sync::ledger::Ledger;

/// What the arcs of a netlist and the wires to their related pins make of a slew, in attoseconds, at one corner.
pub trait Timing {
    ghost looks: { Self → Look };

    ghost wires: { Self → Wire };

    ghost can_look: { Self → ℕ → Edge → Type 0 };

    ghost can_wire: { Self → ℕ → Type 0 };

    /// The transition of an arc at an edge of its output, for a slew of its related pin. None where a look-up of one of its tables is
    /// refused. It takes at most 64 steps.
    fn look<L: Ledger>(
        &self,
        arc: usize,
        edge: Edge,
        slew: u64,
        steps: &mut Steps<L>,
    ) -> Option<u64>
        requires can { can_look self.now arc edge }
        requires slew { slew ≤ most }
        ensures value { result ≡ looks self.now arc edge slew }
        ensures small { IfSome result (λ made. made ≤ most) }
        ensures steps { steps.new ≤ steps.old + 64 };

    /// The slew of the related pin of an arc, for a slew of the driver of its net. None where it is past the limit.
    fn wire(&self, arc: usize, slew: u64) -> Option<u64>
        requires can { can_wire self.now arc }
        requires slew { slew ≤ most }
        ensures value { result ≡ wires self.now arc slew }
        ensures small { IfSome result (λ made. made ≤ most) };
}
