//! The passes over a tree at one corner. A scratch has one place for each node: it holds the capacitance of the node, then
//! the capacitance below it, then its delay.
ghost use Rattle.std.specs.Prelude.{◌≡◌, ℕ, ◌+◌, ◌*◌, ◌^◌, ◌<◌, ◌≤◌, length, slice_set};
ghost use Rattle.corner_set.specs.Places.{place};
ghost use Rattle.rc_tree.specs.Arenas.{node_count, parent_of};
ghost use Rattle.rc_tree.specs.TreeSums.{farads_below, delay_of};
ghost use Rattle.elmore_pass.specs.Columns.{column, farads_of, ohms_of, KeepsOthers};

use corner_set::CornerSet;
use edge_io::Steps;
use rc_tree::{NodeId, RcTree, Scratch};
use std::sync::ledger::Ledger;

/// Puts the capacitance of each node into its place: two steps a node.
pub fn place_farads<C: CornerSet, L: Ledger>(
    tree: &RcTree<C>,
    corner: C::Index,
    scratch: &mut Scratch<C>,
    steps: &mut Steps<L>,
)
    requires { node_count tree.now * C.COUNT ≤ length scratch.old }
    ensures placed { (node : ℕ) → node < node_count tree.now
        → column C.COUNT scratch.new (C.number_of corner) node ≡ farads_of C.COUNT tree.now (C.number_of corner) node }
    ensures others { KeepsOthers C.COUNT scratch.old scratch.new (C.number_of corner) }
    ensures steps { steps.new ≡ steps.old + 2 * node_count tree.now }
{
    for node in 0..tree.len() {
        let node = NodeId(node as u32);
        let farads = tree.cap(node, corner, steps);
        scratch.set(node, corner, u128::from(farads.0), steps);
    }
}

/// Adds what each node has to what its parent has, from the last node to the first: four steps a node.
pub fn gather<C: CornerSet, L: Ledger>(
    tree: &RcTree<C>,
    corner: C::Index,
    scratch: &mut Scratch<C>,
    steps: &mut Steps<L>,
)
    requires some { 0 < node_count tree.now }
    requires room { node_count tree.now * C.COUNT ≤ length scratch.old }
    requires placed { (node : ℕ) → node < node_count tree.now
        → column C.COUNT scratch.old (C.number_of corner) node ≡ farads_of C.COUNT tree.now (C.number_of corner) node }
    ensures below { (node : ℕ) → node < node_count tree.now → column C.COUNT scratch.new (C.number_of corner) node
        ≡ farads_below (parent_of tree.now) (node_count tree.now) (farads_of C.COUNT tree.now (C.number_of corner)) node }
    ensures others { KeepsOthers C.COUNT scratch.old scratch.new (C.number_of corner) }
    ensures steps { steps.new ≤ steps.old + 4 * node_count tree.now }
{
    for node in (1..tree.len()).rev() {
        give_to_parent(tree, NodeId(node as u32), corner, scratch, steps);
    }
}

/// Puts the delay of each node into its place, from the first node to the last: five steps a node.
pub fn spread<C: CornerSet, L: Ledger>(
    tree: &RcTree<C>,
    corner: C::Index,
    scratch: &mut Scratch<C>,
    steps: &mut Steps<L>,
)
    requires some { 0 < node_count tree.now }
    requires room { node_count tree.now * C.COUNT ≤ length scratch.old }
    requires below { (node : ℕ) → node < node_count tree.now → column C.COUNT scratch.old (C.number_of corner) node
        ≡ farads_below (parent_of tree.now) (node_count tree.now) (farads_of C.COUNT tree.now (C.number_of corner)) node }
    ensures delays { (node : ℕ) → node < node_count tree.now → column C.COUNT scratch.new (C.number_of corner) node
        ≡ delay_of (parent_of tree.now) (node_count tree.now) (ohms_of C.COUNT tree.now (C.number_of corner))
        (farads_of C.COUNT tree.now (C.number_of corner)) node }
    ensures others { KeepsOthers C.COUNT scratch.old scratch.new (C.number_of corner) }
    ensures steps { steps.new ≤ steps.old + 5 * node_count tree.now }
{
    scratch.set(NodeId(0), corner, 0, steps);
    for node in 1..tree.len() {
        take_from_parent(tree, NodeId(node as u32), corner, scratch, steps);
    }
}

// Adds what a node has to what its parent has: four steps.
fn give_to_parent<C: CornerSet, L: Ledger>(
    tree: &RcTree<C>,
    node: NodeId,
    corner: C::Index,
    scratch: &mut Scratch<C>,
    steps: &mut Steps<L>,
)
    requires room { node_count tree.now * C.COUNT ≤ length scratch.old }
    requires some { 0 < node.0 }
    requires within { node.0 < node_count tree.now }
    requires fits { column C.COUNT scratch.old (C.number_of corner) (parent_of tree.now node.0) + column C.COUNT scratch.old
        (C.number_of corner) node.0 < 2 ^ 128 }
    ensures given { scratch.new ≡ slice_set scratch.old (place C.COUNT (parent_of tree.now node.0) (C.number_of corner))
        (column C.COUNT scratch.old (C.number_of corner) (parent_of tree.now node.0) + column C.COUNT scratch.old
        (C.number_of corner) node.0) }
    ensures steps { steps.new ≡ steps.old + 4 }
{
    let below = scratch.value(node, corner, steps);
    let Some(parent) = tree.parent(node, steps) else {
        return;
    };
    let own = scratch.value(parent, corner, steps);
    scratch.set(parent, corner, own + below, steps);
}

// Puts the delay of a node into the place of the capacitance below it: five steps.
fn take_from_parent<C: CornerSet, L: Ledger>(
    tree: &RcTree<C>,
    node: NodeId,
    corner: C::Index,
    scratch: &mut Scratch<C>,
    steps: &mut Steps<L>,
)
    requires room { node_count tree.now * C.COUNT ≤ length scratch.old }
    requires some { 0 < node.0 }
    requires within { node.0 < node_count tree.now }
    requires fits { column C.COUNT scratch.old (C.number_of corner) (parent_of tree.now node.0)
        + ohms_of C.COUNT tree.now (C.number_of corner) node.0 * column C.COUNT scratch.old (C.number_of corner) node.0 < 2 ^ 128 }
    ensures taken { scratch.new ≡ slice_set scratch.old (place C.COUNT node.0 (C.number_of corner))
        (column C.COUNT scratch.old (C.number_of corner) (parent_of tree.now node.0)
        + ohms_of C.COUNT tree.now (C.number_of corner) node.0 * column C.COUNT scratch.old (C.number_of corner) node.0) }
    ensures steps { steps.new ≡ steps.old + 5 }
{
    let below = scratch.value(node, corner, steps);
    let ohms = tree.res(node, corner, steps);
    let Some(parent) = tree.parent(node, steps) else {
        return;
    };
    let before = scratch.value(parent, corner, steps);
    scratch.set(node, corner, before + u128::from(ohms.0) * below, steps);
}
