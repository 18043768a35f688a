//! An order of the nodes of a graph, or a cycle.
ghost use Rattle.std.specs.Prelude.{◌≡◌, ◌<◌, length, All, IfOk, IfErr};
ghost use Rattle.graph_order.specs.Orders.{IsOrder};
ghost use Rattle.graph_order.specs.Ends.{CarriesCycle};

use crate::cycles::{cycle_from, waiting_link};
use crate::ends::OrderEnd;
use crate::progress::{Progress, run};
use std::alloc::Global;

/// An order of the nodes from 0 up to `nodes` in which each link leads from a node to a later one.
///
/// The link numbered i leads from the node `sources[i]` to the node `targets[i]`. Where there is no order the answer is a
/// cycle that begins at its least node. The work is linear in nodes and links.
pub fn order_of(
    alloc: Global,
    nodes: usize,
    sources: &[usize],
    targets: &[usize],
) -> Result<Vec<usize>, OrderEnd>
    requires same { length targets.now ≡ length sources.now }
    requires sources { All (λ node. node < nodes) sources.now }
    requires targets { All (λ node. node < nodes) targets.now }
    ensures order { IfOk result (λ order. IsOrder nodes sources.now targets.now order.items) }
    ensures cycle { IfErr result (CarriesCycle sources.now targets.now) }
{
    let Progress { order, waits } = run(alloc, nodes, sources, targets)?;
    match waiting_link(&waits) {
        None => Ok(order),
        Some(link) => Err(OrderEnd::Cycle(cycle_from(alloc, link, sources, targets, &waits)?)),
    }
}
