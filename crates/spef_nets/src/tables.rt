//! The elements of all nets in one set of lists.
ghost use Rattle.std.specs.Prelude.{◌≡◌, ◌*◌, ◌<◌, ◌≤◌, [], ◌∷◌, ◌++◌, length, slice_index_or, IfOk, OnOk};
ghost use Rattle.std.specs.List.{between};
ghost use Rattle.spef_nets.specs.Rows.{no_rows, with_rows};
ghost use Rattle.spef_nets.specs.RowsOf.{rows_of, rows_at};
ghost use Rattle.spef_nets.specs.Tables.{start, end_of, rows_between, AreFilled, IsBehind, IsWithin};

use crate::elements::{ElementParts, Elements, put_all};
use corner_set::CornerSet;
use edge_io::OutOfMemory;
use edge_io::lists::{push, to_u32};
use spef_text::SpefFile;
use std::alloc::Global;

/// Where the rows of a net end in the lists, and how many capacitances its section has as it is written.
#[derive(Clone, Copy)]
pub struct NetEnd {
    pub nodes: u32,
    pub conns: u32,
    pub caps: u32,
    pub joints: u32,
    pub written: u32,
}

/// Where the rows of the first net begin.
const START: NetEnd = NetEnd {
    nodes: 0,
    conns: 0,
    caps: 0,
    joints: 0,
    written: 0,
};

/// The rows of nets, one net behind another. A node stands there by a token that names it.
#[derive(Drop)]
pub struct Tables {
    pub nodes: Vec<u32>,
    pub elements: Elements,
    pub ends: Vec<NetEnd>,
}

impl Tables {
    /// No net, with room for those of a file. A net that is a tree has one node more than resistors. A coupling that counts at both its
    /// places takes more than there is room for at first.
    pub fn with_room<C: CornerSet>(alloc: Global, file: &SpefFile) -> Result<Tables, OutOfMemory>
        ensures nodes { IfOk result (λ tables. tables.nodes.items ≡ []) }
        ensures rows { IfOk result (λ tables. rows_of tables.elements ≡ no_rows) }
        ensures ends { IfOk result (λ tables. tables.ends.items ≡ []) }
    {
        let nets = file.section_count();
        let mut conns: usize = 0;
        let mut caps: usize = 0;
        let mut ress: usize = 0;
        for s in 0..nets {
            conns = conns.saturating_add(file.conn_count(s));
            caps = caps.saturating_add(file.cap_count(s));
            ress = ress.saturating_add(file.res_count(s));
        }
        Ok(Tables {
            nodes: Vec::with_capacity(alloc, ress.saturating_add(nets))?,
            elements: Elements::with_room::<C>(alloc, conns, caps, ress)?,
            ends: Vec::with_capacity(alloc, nets)?,
        })
    }

    /// Puts the rows of one more net, whose section has so many capacitances as it is written, behind those of the others.
    pub fn append(
        &mut self,
        nodes: &[u32],
        elements: &ElementParts<'_>,
        written: usize,
    ) -> Result<(), OutOfMemory>
        ensures nodes { OnOk result (self.new.nodes.items ≡ self.old.nodes.items ++ nodes.now) }
        ensures rows { OnOk result (rows_of self.new.elements ≡ with_rows (rows_of self.old.elements) (rows_at elements.now)) }
        ensures ends { OnOk result (self.new.ends.items
            ≡ self.old.ends.items ++ end_of self.new.nodes.items (rows_of self.new.elements) written ∷ []) }
    {
        put_all(&mut self.nodes, nodes)?;
        self.elements.append(elements)?;
        let end = self.end(written)?;
        push(&mut self.ends, end)?;
        Ok(())
    }

    // Where all rows end.
    fn end(&self, written: usize) -> Result<NetEnd, OutOfMemory>
        ensures { IfOk result (λ end. end ≡ end_of self.now.nodes.items (rows_of self.now.elements) written) }
    {
        Ok(NetEnd {
            nodes: to_u32(self.nodes.len())?,
            conns: to_u32(self.elements.conns.len())?,
            caps: to_u32(self.elements.caps.len())?,
            joints: to_u32(self.elements.joints.len())?,
            written: to_u32(written)?,
        })
    }

    /// How many nets there are.
    pub fn len(&self) -> usize
        ensures { result ≡ length self.now.ends.items }
    {
        self.ends.len()
    }

    /// Where the rows of a net begin, and where they end.
    pub fn ends_of(&self, net: usize) -> (NetEnd, NetEnd)
        requires { net < length self.now.ends.items }
        ensures from { result.0 ≡ slice_index_or (start ∷ self.now.ends.items) net start }
        ensures to { result.1 ≡ slice_index_or self.now.ends.items net start }
    {
        (end_before(self.ends.as_slice(), net), self.ends[net])
    }

    /// The nodes between two ends.
    pub fn nodes_between(&self, from: NetEnd, to: NetEnd) -> &[u32]
        requires behind { IsBehind from to }
        requires within { IsWithin to self.now.nodes.items (rows_of self.now.elements) }
        ensures { result.now ≡ between from.nodes to.nodes self.now.nodes.items }
    {
        part(self.nodes.as_slice(), from.nodes, to.nodes)
    }

    /// The elements between two ends.
    pub fn elements_between<C: CornerSet>(&self, from: NetEnd, to: NetEnd) -> ElementParts<'_>
        requires behind { IsBehind from to }
        requires within { IsWithin to self.now.nodes.items (rows_of self.now.elements) }
        requires filled { AreFilled C.COUNT (rows_of self.now.elements) }
        ensures { rows_at result ≡ rows_between C.COUNT from to (rows_of self.now.elements) }
    {
        let Elements {
            conns,
            loads,
            caps,
            farads,
            joints,
            ohms,
        } = &self.elements;
        ElementParts {
            conns: part(conns.as_slice(), from.conns, to.conns),
            loads: values(loads.as_slice(), from.conns, to.conns, C::COUNT),
            caps: part(caps.as_slice(), from.caps, to.caps),
            farads: values(farads.as_slice(), from.caps, to.caps, C::COUNT),
            joints: part(joints.as_slice(), from.joints, to.joints),
            ohms: values(ohms.as_slice(), from.joints, to.joints, C::COUNT),
        }
    }
}

// Where the rows of a net begin: where those of the net in front of it end.
fn end_before(ends: &[NetEnd], net: usize) -> NetEnd
    requires { net < length ends.now }
    ensures { result ≡ slice_index_or (start ∷ ends.now) net start }
{
    if net == 0 { START } else { ends[net - 1] }
}

// The items between two places.
fn part<T>(items: &[T], from: u32, to: u32) -> &[T]
    requires order { from ≤ to }
    requires within { to ≤ length items.now }
    ensures { result.now ≡ between from to items.now }
{
    &items[from as usize..to as usize]
}

// The values of the rows between two places, so many in each row.
fn values<T>(items: &[T], from: u32, to: u32, count: usize) -> &[T]
    requires order { from ≤ to }
    requires within { to * count ≤ length items.now }
    ensures { result.now ≡ between (from * count) (to * count) items.now }
{
    &items[from as usize * count..to as usize * count]
}
