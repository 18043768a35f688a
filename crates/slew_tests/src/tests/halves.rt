//! A plain rule for slews.
ghost use Rattle.std.specs.Prelude.{ℕ};
ghost use Rattle.slew_tests.specs.Halves.{half_of, more_of};

use cell_models::Edge;
use edge_io::Steps;
use slew_states::Timing;
use std::sync::ledger::Ledger;

/// An arc makes half of a slew and 10 more of it at a rise, 20 at a fall, up to a limit. A wire makes it longer by a constant.
#[derive(Clone, Copy)]
pub struct Halves {
    pub limit: u64,
    pub wire: u64,
}

impl Timing for Halves {
    ghost looks = { λ halves. half_of halves.limit };

    ghost wires = { λ halves. more_of halves.wire };

    ghost can_look = { λ _ _ _. Unit {0} };

    ghost can_wire = { λ _ _. Unit {0} };

    fn look<L: Ledger>(
        &self,
        _arc: usize,
        edge: Edge,
        slew: u64,
        steps: &mut Steps<L>,
    ) -> Option<u64> {
        steps.tick();
        if slew > self.limit {
            return None;
        }
        match edge {
            Edge::Rise => Some(slew / 2 + 10),
            Edge::Fall => Some(slew / 2 + 20),
        }
    }

    fn wire(&self, _arc: usize, slew: u64) -> Option<u64> {
        if self.wire > 1_000_000_000_000 - slew {
            return None;
        }
        Some(slew + self.wire)
    }
}
