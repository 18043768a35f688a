//! The delays of a tree at all corners.
ghost use Rattle.std.specs.Prelude.{◌≡◌, ℕ, ◌+◌, ◌*◌, ◌<◌, ◌≤◌, length};
ghost use Rattle.rc_tree.specs.Arenas.{node_count};
ghost use Rattle.rc_tree.specs.TreeSums.{delay_of};
ghost use Rattle.rc_tree.specs.Arenas.{parent_of};
ghost use Rattle.elmore_pass.specs.Columns.{column, farads_of, ohms_of, KeepsOthers};
ghost use Rattle.elmore_pass.specs.Delays.{HasDelay};

use crate::passes::{gather, place_farads, spread};
use corner_set::{CornerSet, corner_at};
use edge_io::Steps;
use rc_tree::{RcTree, Scratch};
use std::sync::ledger::Ledger;

/// Leaves the Elmore delay of each node of the tree at each corner in the scratch, in units of 10^-27 s and not rounded. The
/// scratch has room for the nodes. It takes no memory and at most twelve steps for each node and corner.
pub fn elmore_into<C: CornerSet, L: Ledger>(
    tree: &RcTree<C>,
    scratch: &mut Scratch<C>,
    steps: &mut Steps<L>,
)
    requires room { node_count tree.now * C.COUNT ≤ length scratch.old }
    ensures delays { (node : ℕ) (corner : C.Index) → node < node_count tree.now
        → HasDelay C.COUNT tree.now scratch.new node (C.number_of corner) }
    ensures size { length scratch.new ≡ length scratch.old }
    ensures steps { steps.new ≤ steps.old + 12 * C.COUNT * node_count tree.now }
{
    if tree.len() == 0 {
        return;
    }
    for number in 0..C::COUNT {
        let corner = corner_at::<C>(number);
        delays_at(tree, corner, scratch, steps);
    }
}

// The delays at one corner: at most eleven steps a node.
fn delays_at<C: CornerSet, L: Ledger>(
    tree: &RcTree<C>,
    corner: C::Index,
    scratch: &mut Scratch<C>,
    steps: &mut Steps<L>,
)
    requires some { 0 < node_count tree.now }
    requires room { node_count tree.now * C.COUNT ≤ length scratch.old }
    ensures delays { (node : ℕ) → node < node_count tree.now → column C.COUNT scratch.new (C.number_of corner) node
        ≡ delay_of (parent_of tree.now) (node_count tree.now) (ohms_of C.COUNT tree.now (C.number_of corner))
        (farads_of C.COUNT tree.now (C.number_of corner)) node }
    ensures others { KeepsOthers C.COUNT scratch.old scratch.new (C.number_of corner) }
    ensures steps { steps.new ≤ steps.old + 11 * node_count tree.now }
{
    place_farads(tree, corner, scratch, steps);
    gather(tree, corner, scratch, steps);
    spread(tree, corner, scratch, steps);
}
