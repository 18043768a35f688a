//! Why a graph has no order.
ghost use Rattle.std.specs.Prelude.{◌≡◌};

use edge_io::OutOfMemory as WantOfMemory;

/// Why a graph has no order.
#[derive(Drop)]
pub enum OrderEnd {
    /// The links of a cycle, by their numbers. The first begins at the least node of the cycle.
    Cycle(Vec<usize>),
    /// Memory was short.
    OutOfMemory,
}

impl From<WantOfMemory> for OrderEnd {
    ghost use Rattle.graph_order.specs.declared.ends.OrderEnd.TheVariants.{OutOfMemory};

    ghost from_gives = { λ _ end. end ≡ OutOfMemory };

    fn from(_error: WantOfMemory) -> OrderEnd {
        OrderEnd::OutOfMemory
    }
}
