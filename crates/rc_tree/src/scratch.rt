//! A place for a sum at each node and corner of a tree.
ghost use Rattle.std.specs.Prelude.{◌≡◌, ◌+◌, ◌*◌, ◌<◌, ◌≤◌, IfOk, OnOk, Some, ℕ, replicate, length, slice_set};
ghost use Rattle.corner_set.specs.Places.{place, HasRow, value_at};

use crate::node_ids::NodeId;
use corner_set::{CornerSet, Grid};
use edge_io::{OutOfMemory, Steps};
use std::alloc::Global;
use std::marker::Model;
use std::sync::ledger::Ledger;

/// A number for each node and corner. Contracts see the list of them, node after node, and for each node by corner.
#[derive(Drop)]
pub struct Scratch<C: CornerSet> {
    values: Grid<C, u128>,
}

impl<C: CornerSet> Model for Scratch<C> {
    ghost use Rattle.std.specs.Prelude.{ℕ, List};

    ghost Value = { List ℕ };

    ghost view = { λ s. s.values.values };
}

impl<C: CornerSet> Scratch<C> {
    /// Room for so many nodes, with 0 at each place.
    pub fn reserve(alloc: Global, nodes: usize) -> Result<Scratch<C>, OutOfMemory>
        ensures { IfOk result (λ scratch. scratch ≡ replicate (nodes * C.COUNT) 0) }
    {
        Ok(Scratch {
            values: Grid::with_rows(alloc, nodes, 0)?,
        })
    }

    /// Makes room for so many nodes, in the memory that it has where that suffices. What it held is no matter.
    pub fn make_room(&mut self, alloc: Global, nodes: usize) -> Result<(), OutOfMemory>
        ensures { OnOk result (nodes * C.COUNT ≤ length self.new) }
    {
        if self.values.rows() < nodes {
            self.values = Grid::with_rows(alloc, nodes, 0)?;
        }
        Ok(())
    }

    /// The number of a node at a corner. It is one step.
    pub fn value<L: Ledger>(&self, node: NodeId, corner: C::Index, steps: &mut Steps<L>) -> u128
        requires { HasRow C.COUNT self.now node.0 }
        ensures value { value_at C.COUNT self.now node.0 (C.number_of corner) ≡ Some result }
        ensures step { steps.new ≡ steps.old + 1 }
    {
        steps.tick();
        self.values.get(node.0 as usize, corner)
    }

    /// Sets the number of a node at a corner, and leaves all others as they were. It is one step.
    pub fn set<L: Ledger>(
        &mut self,
        node: NodeId,
        corner: C::Index,
        value: u128,
        steps: &mut Steps<L>,
    )
        requires { HasRow C.COUNT self.old node.0 }
        ensures written { self.new ≡ slice_set self.old (place C.COUNT node.0 (C.number_of corner)) value }
        ensures held { value_at C.COUNT self.new node.0 (C.number_of corner) ≡ Some value }
        ensures others { (other : ℕ) (at : C.Index) → ¬ ((other ≡ node.0) × (C.number_of at ≡ C.number_of corner)) →
            value_at C.COUNT self.new other (C.number_of at) ≡ value_at C.COUNT self.old other (C.number_of at) }
        ensures step { steps.new ≡ steps.old + 1 }
    {
        steps.tick();
        self.values.set(node.0 as usize, corner, value);
    }
}
