//! A net of a file.
ghost use Rattle.std.specs.Prelude.{◌≡◌, ◌+◌, ◌*◌, ◌<◌, ◌≤◌, length, slice_get, Some, IfOk};
ghost use Rattle.corner_set.specs.Places.{value_at};
ghost use Rattle.delay_units.specs.Bounds.{most_farads, most_ohms};
ghost use Rattle.spef_nets.specs.NetElements.{NetElements};
ghost use Rattle.spef_nets.specs.Nodes.{AreDistinctNodes};
ghost use Rattle.spef_nets.specs.NodeNames.{IsSdfAt};

use crate::elements::ElementParts;
use crate::net_keys::NetKeys;
use crate::node_names::NodeNames;
use crate::parts::{Ends, Listed, Resistor};
use corner_set::CornerSet;
use delay_units::{Farads, Ohms};
use edge_io::{OutOfMemory, Steps, Text};
use name_table::NodeName;
use std::alloc::Global;
use std::marker::{Model, PhantomData};
use std::sync::ledger::Ledger;

/// One net: its nodes, numbered from 0 by first place, its connections, its capacitances to ground and its resistors. Contracts see
/// these. It is a view of the lists of all nets, and the names of its nodes are made when they are asked for.
#[derive(Drop)]
pub struct Net<'s, 'f, C: CornerSet> {
    pub(crate) net: &'s [u8],
    pub(crate) names: NodeNames<'s, 'f>,
    pub(crate) elements: ElementParts<'s>,
    pub(crate) written: usize,
    pub(crate) corners: PhantomData<C>,
}

impl<'s, 'f, C: CornerSet> Model for Net<'s, 'f, C> {
    ghost use Rattle.spef_nets.specs.NetElements.{NetElements, AreWhole};
    ghost use Rattle.spef_nets.specs.Nodes.{nodes_at};
    ghost use Rattle.spef_nets.specs.NodeNames.{AreSpelled};
    ghost use Rattle.spef_nets.specs.Rows.{net_in};
    ghost use Rattle.spef_nets.specs.RowsOf.{rows_at};

    ghost Value = { NetElements };

    ghost view = { λ n. net_in n.net.now (nodes_at n.names.file.now n.names.tokens.now) (rows_at n.elements) n.written };

    ghost invariant = { λ n. AreSpelled n.names.file.now n.names.head.now n.names.tokens.now
        × AreWhole C.COUNT (net_in n.net.now (nodes_at n.names.file.now n.names.tokens.now) (rows_at n.elements) n.written) };
}

impl<'s, 'f, C: CornerSet> Net<'s, 'f, C> {
    /// The net's name.
    pub fn net(&self) -> &[u8]
        ensures { result.now ≡ self.now.net }
    {
        self.net
    }

    /// How many nodes the net has.
    pub fn node_count(&self) -> usize
        ensures { result ≡ length self.now.nodes }
    {
        self.names.count()
    }

    /// The name of a node by its number.
    pub fn node_name(&self, alloc: Global, i: usize) -> Result<NodeName, OutOfMemory>
        requires { i < length self.now.nodes }
        ensures { IfOk result (λ name. slice_get self.now.nodes i ≡ Some name) }
    {
        self.names.name(alloc, i)
    }

    /// What makes the nodes the ones that they are.
    pub fn keys(&self) -> NetKeys<'s, 'f>
        ensures { result ≡ self.now.nodes }
    {
        NetKeys::new(self.names)
    }

    /// The spelling in SDF of the name of a node by its number.
    pub fn node_sdf(&self, alloc: Global, i: usize) -> Result<Text, OutOfMemory>
        requires { i < length self.now.nodes }
        ensures { IfOk result (IsSdfAt self.now.nodes i) }
    {
        self.names.sdf(alloc, i)
    }

    /// No two nodes are one: they differ by head or by tail. It does nothing when it is called.
    pub fn distinct(&self)
        ensures { AreDistinctNodes self.now.nodes }
    {
        let _ = &self.names;
    }

    /// How many connections the net has.
    pub fn conn_count(&self) -> usize
        ensures { result ≡ length self.now.conns }
    {
        self.elements.conns.len()
    }

    /// A connection, in the file's order. Each stands at another node.
    pub fn conn(&self, i: usize) -> Listed
        requires { i < length self.now.conns }
        ensures conn { slice_get self.now.conns i ≡ Some result }
        ensures node { result.node < length self.now.nodes }
    {
        item(self.elements.conns, i)
    }

    /// The load of a connection at a corner, 0 where the file gives none.
    pub fn conn_load(&self, i: usize, corner: C::Index) -> Farads
        requires { i < length self.now.conns }
        ensures load { value_at C.COUNT self.now.loads i (C.number_of corner) ≡ Some result }
        ensures most { result.0 ≤ most_farads }
    {
        value(self.elements.loads, i, C::COUNT, C::number(corner))
    }

    /// How many capacitances the section has as it is written, a coupling as one.
    pub fn written_caps(&self) -> usize
        ensures { result ≡ self.now.written }
    {
        self.written
    }

    /// How many capacitances to ground there are, a coupling counted at each of its places that belongs: at most two.
    pub fn cap_count(&self) -> usize
        ensures count { result ≡ length self.now.caps }
        ensures most { result ≤ 2 * self.now.written }
    {
        self.elements.caps.len()
    }

    /// A capacitance to ground at a corner: its node and its value. It is one step.
    pub fn cap<L: Ledger>(
        &self,
        i: usize,
        corner: C::Index,
        steps: &mut Steps<L>,
    ) -> (usize, Farads)
        requires { i < length self.now.caps }
        ensures node { slice_get self.now.caps i ≡ Some result.0 }
        ensures within { result.0 < length self.now.nodes }
        ensures value { value_at C.COUNT self.now.farads i (C.number_of corner) ≡ Some result.1 }
        ensures most { result.1.0 ≤ most_farads }
        ensures step { steps.new ≡ steps.old + 1 }
    {
        steps.tick();
        (
            item(self.elements.caps, i) as usize,
            value(self.elements.farads, i, C::COUNT, C::number(corner)),
        )
    }

    /// How many resistors there are.
    pub fn res_count(&self) -> usize
        ensures { result ≡ length self.now.joints }
    {
        self.elements.joints.len()
    }

    /// A resistor at a corner, in the file's order. It is one step.
    pub fn res<L: Ledger>(&self, i: usize, corner: C::Index, steps: &mut Steps<L>) -> Resistor
        requires { i < length self.now.joints }
        ensures nodes { slice_get self.now.joints i ≡ Some (record { a = result.a; b = result.b }) }
        ensures a_within { result.a < length self.now.nodes }
        ensures b_within { result.b < length self.now.nodes }
        ensures value { value_at C.COUNT self.now.ohms i (C.number_of corner) ≡ Some result.ohms }
        ensures most { result.ohms.0 ≤ most_ohms }
        ensures step { steps.new ≡ steps.old + 1 }
    {
        steps.tick();
        let Ends { a, b } = item(self.elements.joints, i);
        Resistor {
            a: a as usize,
            b: b as usize,
            ohms: value(self.elements.ohms, i, C::COUNT, C::number(corner)),
        }
    }
}

// An item of a net's part of a list.
#[inline]
fn item<T: Copy>(items: &[T], i: usize) -> T
    requires { i < length items.now }
    ensures { slice_get items.now i ≡ Some result }
{
    items[i]
}

// The value of this number in a row, of which each has so many.
#[inline]
fn value<T: Copy>(values: &[T], row: usize, count: usize, number: usize) -> T
    requires { row * count + number < length values.now }
    ensures { slice_get values.now (row * count + number) ≡ Some result }
{
    values[row * count + number]
}
