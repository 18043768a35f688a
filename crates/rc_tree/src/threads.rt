//! The resistors at each node, threaded from the last to the first.
ghost use Rattle.std.specs.Prelude.{◌<◌, All, OnOk};
ghost use Rattle.rc_tree.specs.Threads.{IsThreaded};

use edge_io::OutOfMemory;
use edge_io::lists::{empty, push, refill, to_u32};

/// For each node one more than the last resistor at it, and for each resistor one more than the one before it at the same
/// node; 0 for none.
#[derive(Drop)]
pub struct Threads {
    pub heads: Vec<u32>,
    pub nexts: Vec<u32>,
}

/// Threads the resistors by one of their ends.
pub fn thread(near: &[u32], nodes: usize, threads: &mut Threads) -> Result<(), OutOfMemory>
    requires { All (λ node. node < nodes) near.now }
    ensures { OnOk result (IsThreaded near.now nodes threads.new.heads.items threads.new.nexts.items) }
{
    refill(&mut threads.heads, nodes, 0)?;
    empty(&mut threads.nexts, near.len())?;
    for place in 0..near.len() {
        let node = near[place] as usize;
        push(&mut threads.nexts, threads.heads[node])?;
        threads.heads[node] = to_u32(place + 1)?;
    }
    Ok(())
}
