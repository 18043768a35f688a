//! The tree of a net in an arena.
ghost use Rattle.std.specs.Prelude.{◌≡◌, ◌+◌, ◌*◌, ◌<◌, ◌≤◌, length, slice_get, IfOk, IfSome, Some};
ghost use Rattle.corner_set.specs.Places.{value_at};
ghost use Rattle.delay_units.specs.Bounds.{most_ohms};
ghost use Rattle.rc_tree.specs.Arenas.{IsArena, node_count, parent_at, arena_elements, most_load};
ghost use Rattle.rc_tree.specs.NetLoad.{net_load};

use crate::node_ids::NodeId;
use crate::planting::empty_lists;
use corner_set::{CornerSet, Grid};
use delay_units::{Farads, Ohms};
use edge_io::{OutOfMemory, Steps};
use std::alloc::Global;
use std::marker::Model;
use std::sync::ledger::Ledger;

/// The nodes of a net, a parent before its children: node 0 is the driver's, and each other node has a parent, to which one
/// resistor links it. At each corner a node has the resistance of its link and a capacitance. Contracts see these.
///
/// There are at most 2^19 + 1 nodes. A resistance is at most 10^14, and at each corner the capacitances are at most
/// 2^20 * 10^12 together.
#[derive(Drop)]
pub struct RcTree<C: CornerSet> {
    pub(crate) parents: Vec<u32>,
    pub(crate) ohms: Grid<C, Ohms>,
    pub(crate) farads: Grid<C, Farads>,
    pub(crate) sinks: Vec<NodeId>,
}

impl<C: CornerSet> Model for RcTree<C> {
    ghost use Rattle.rc_tree.specs.Arenas.{Arena, IsArena};

    ghost Value = { Arena };

    ghost view = { λ t. record { parents = t.parents.items; ohms = t.ohms.values; farads = t.farads.values; sinks = t.sinks.items } };

    ghost invariant = { λ t. IsArena C.COUNT
        (record { parents = t.parents.items; ohms = t.ohms.values; farads = t.farads.values; sinks = t.sinks.items }) };
}

impl<C: CornerSet> RcTree<C> {
    /// A tree with no node. It takes no memory; the grids in it are made by a call that can answer want of it.
    pub fn new(alloc: Global) -> Result<RcTree<C>, OutOfMemory>
        ensures { IfOk result (λ tree. node_count tree ≡ 0) }
    {
        let ohms = Grid::with_rows(alloc, 0, Ohms(0))?;
        let farads = Grid::with_rows(alloc, 0, Farads(0))?;
        Ok(RcTree {
            parents: Vec::new(alloc),
            ohms,
            farads,
            sinks: Vec::new(alloc),
        })
    }

    // Leaves it no node. It keeps its memory.
    pub(crate) fn clear(&mut self)
        ensures { node_count self.new ≡ 0 }
    {
        empty_lists(
            &mut self.parents,
            &mut self.ohms,
            &mut self.farads,
            &mut self.sinks,
        );
    }

    /// How many nodes there are, at most 2^19 + 1.
    pub fn len(&self) -> usize
        ensures len { result ≡ node_count self.now }
        ensures whole { IsArena C.COUNT self.now }
    {
        self.parents.len()
    }

    /// How many sinks there are.
    pub fn sink_count(&self) -> usize
        ensures { result ≡ length self.now.sinks }
    {
        self.sinks.len()
    }

    /// The node of the k-th sink of the pins, from 0.
    pub fn sink(&self, k: usize) -> NodeId
        requires { k < length self.now.sinks }
        ensures sink { slice_get self.now.sinks k ≡ Some result }
        ensures within { result.0 < node_count self.now }
    {
        self.sinks[k]
    }

    /// The load of the net at a corner: the sum of its capacitances. It is no step.
    pub fn load(&self, corner: C::Index) -> Farads
        requires { 0 < node_count self.now }
        ensures sum { result.0 ≡ net_load (arena_elements C.COUNT self.now (C.number_of corner)) }
        ensures most { result.0 ≤ most_load }
    {
        let mut sum = 0;
        for node in 0..self.parents.len() {
            sum += self.farads.get(node, corner).0;
        }
        Farads(sum)
    }

    /// The parent of a node, or `None` for node 0. It is one step.
    pub fn parent<L: Ledger>(&self, node: NodeId, steps: &mut Steps<L>) -> Option<NodeId>
        requires { node.0 < node_count self.now }
        ensures parent { result ≡ parent_at self.now node.0 }
        ensures before { IfSome result (λ parent. parent.0 < node.0) }
        ensures step { steps.new ≡ steps.old + 1 }
    {
        steps.tick();
        if node.0 == 0 {
            return None;
        }
        Some(NodeId(self.parents[node.0 as usize]))
    }

    /// The capacitance at a node, at a corner. It is one step.
    pub fn cap<L: Ledger>(&self, node: NodeId, corner: C::Index, steps: &mut Steps<L>) -> Farads
        requires { node.0 < node_count self.now }
        ensures value { value_at C.COUNT self.now.farads node.0 (C.number_of corner) ≡ Some result }
        ensures step { steps.new ≡ steps.old + 1 }
    {
        steps.tick();
        self.farads.get(node.0 as usize, corner)
    }

    /// The resistance between a node and its parent at a corner, which is 0 for node 0. It is one step.
    pub fn res<L: Ledger>(&self, node: NodeId, corner: C::Index, steps: &mut Steps<L>) -> Ohms
        requires { node.0 < node_count self.now }
        ensures value { value_at C.COUNT self.now.ohms node.0 (C.number_of corner) ≡ Some result }
        ensures root { node.0 ≡ 0 → result.0 ≡ 0 }
        ensures most { result.0 ≤ most_ohms }
        ensures step { steps.new ≡ steps.old + 1 }
    {
        steps.tick();
        self.ohms.get(node.0 as usize, corner)
    }
}
