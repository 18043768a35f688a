//! The order in which nets are settled.
ghost use Rattle.std.specs.Prelude.{◌≡◌, ◌+◌, ◌<◌, ◌^◌, IfOk, IfErr};
ghost use Rattle.slew_states.specs.Arcs.{HaveNets, sources_of, targets_of};
ghost use Rattle.slew_states.specs.Loops.{IsNetOrder};
ghost use Rattle.slew_states.specs.Ends.{CarriesLoop};

use crate::arcs::FlatArc;
use edge_io::OutOfMemory;
use edge_io::lists::push;
use graph_order::{OrderEnd, order_of};
use std::alloc::Global;

/// An order of so many nets in which each arc leads from a net to a later one, or a loop of arcs that begins at its least net. The
/// order has two numbers besides those of the nets.
pub fn order_nets(alloc: Global, nets: usize, arcs: &[FlatArc]) -> Result<Vec<usize>, OrderEnd>
    requires nets { HaveNets nets arcs.now }
    requires few { nets < 2 ^ 63 }
    ensures order { IfOk result (λ order. IsNetOrder nets arcs.now order.items) }
    ensures cycle { IfErr result (CarriesLoop arcs.now) }
{
    let sources = sources_of(alloc, nets, arcs)?;
    let targets = targets_of(alloc, nets, arcs)?;
    order_of(alloc, nets + 2, &sources, &targets)
}

// The node at which each arc begins.
fn sources_of(alloc: Global, nets: usize, arcs: &[FlatArc]) -> Result<Vec<usize>, OutOfMemory>
    ensures { IfOk result (λ nodes. nodes.items ≡ sources_of nets arcs.now) }
{
    let mut nodes = Vec::with_capacity(alloc, arcs.len())?;
    for arc in arcs {
        push(&mut nodes, arc.source.unwrap_or(nets))?;
    }
    Ok(nodes)
}

/// The node at which each arc ends.
pub(crate) fn targets_of(
    alloc: Global,
    nets: usize,
    arcs: &[FlatArc],
) -> Result<Vec<usize>, OutOfMemory>
    requires { nets < 2 ^ 63 }
    ensures { IfOk result (λ nodes. nodes.items ≡ targets_of nets arcs.now) }
{
    let mut nodes = Vec::with_capacity(alloc, arcs.len())?;
    for arc in arcs {
        push(&mut nodes, arc.target.unwrap_or(nets + 1))?;
    }
    Ok(nodes)
}
