//! The links at each node, chained from the last to the first.
ghost use Rattle.std.specs.Prelude.{◌<◌, All, IfOk};
ghost use Rattle.graph_order.specs.Fans.{IsFan};

use edge_io::OutOfMemory;
use edge_io::lists::push;
use std::alloc::Global;

/// The links at each node, by one of their ends: a chain for each node.
#[derive(Drop)]
pub struct Fan {
    /// For each node the last link at it.
    pub last: Vec<Option<usize>>,

    /// For each link the one before it at the same node.
    pub previous: Vec<Option<usize>>,
}

/// Chains links by the nodes at which they have one of their ends: `keys` has that node for each link.
pub fn fan_of(alloc: Global, keys: &[usize], nodes: usize) -> Result<Fan, OutOfMemory>
    requires { All (λ node. node < nodes) keys.now }
    ensures { IfOk result (λ fan. IsFan keys.now nodes fan.last.items fan.previous.items) }
{
    let mut last: Vec<Option<usize>> = vec![in alloc; None; nodes]?;
    let mut previous = Vec::with_capacity(alloc, keys.len())?;
    for link in 0..keys.len() {
        let node = keys[link];
        push(&mut previous, last[node])?;
        last[node] = Some(link);
    }
    Ok(Fan { last, previous })
}
