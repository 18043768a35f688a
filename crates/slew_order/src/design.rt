//! A design whose slews are asked for.
ghost use Rattle.std.specs.Prelude.{◌≡◌, ◌+◌, ◌<◌, ◌≤◌, length, unsigned_abs, IfOk, IfSome, IfNone, Some, None, All};
ghost use Rattle.netlist_link.specs.FlatNetlist.{net_at};
ghost use Rattle.slew_states.specs.Arcs.{HaveNets};
ghost use Rattle.slew_states.specs.PinState.{most};
ghost use Rattle.slew_order.specs.Designs.{IsSource};
ghost use Rattle.slew_order.specs.FlatArcs.{IsArcAt, flat_at};
ghost use Rattle.slew_order.specs.Loaded.{source_in};
ghost use Rattle.net_delays.specs.NetTimes.{elmore_at, elmore_limit};
ghost use Rattle.slew_order.specs.Sinks.{ArePinStarts, IsSunk, related_sink};
ghost use Rattle.slew_order.specs.SinkPlaces.{ArePlaces};
ghost use Rattle.slew_order.specs.Timings.{arcs_in, flat_in, arc_number, behind_wire, look_at, lookups_at, tables_of, wire_at};

use crate::arcs::ArcAt;
use crate::flattening::{all_arcs, cell_arc, flat_arcs};
use crate::loaded::LoadedNetlist;
use crate::lookups::{EdgeLookups, look_up_both, transition_of};
use crate::sinks::{PinSinks, related_sinks};
use crate::wires::slew_behind;
use cell_models::{Arc, Edge, EdgeTables};
use corner_set::{Beyond, CornerSet, WireSlew, corner_at, first_corner};
use edge_io::{OutOfMemory, Steps};
use netlist_link::Netlist;
use slew_states::FlatArc;
use std::alloc::Global;
use std::marker::Model;
use std::sync::ledger::Ledger;

/// A design whose slews are asked for, with its arcs. Contracts see what its slews come from.
#[derive(Drop)]
pub(crate) struct Design<'a, C: CornerSet> {
    loaded: &'a LoadedNetlist<'a, C>,
    beyond: Beyond,
    mode: WireSlew,
    slew: u64,
    arcs: Vec<ArcAt>,
    flat: Vec<FlatArc>,
    // which sink of its net the related pin of each arc is
    sinks: Vec<usize>,
}

impl<'a, C: CornerSet> Model for Design<'a, C> {
    ghost use Rattle.slew_order.specs.Loaded.{source_in};
    ghost use Rattle.slew_order.specs.Timings.{SlewSource};
    ghost use Rattle.slew_order.specs.Designs.{AreArcsIn};

    ghost Value = { SlewSource };

    ghost view = { λ d. source_in d.loaded.now C.COUNT d.beyond d.mode d.slew };

    ghost invariant = { λ d. AreArcsIn (source_in d.loaded.now C.COUNT d.beyond d.mode d.slew)
        d.arcs.items d.flat.items d.sinks.items };
}

/// The tables of an edge of an arc.
pub(crate) fn tables_of(arc: &Arc, edge: Edge) -> Option<&EdgeTables>
    ensures some { IfSome result (λ tables. tables_of arc.now edge ≡ Some tables.now) }
    ensures none { IfNone result (tables_of arc.now edge ≡ None) }
{
    match edge {
        Edge::Rise => arc.rise.as_ref(),
        Edge::Fall => arc.fall.as_ref(),
    }
}

impl<'a, C: CornerSet> Design<'a, C> {
    /// The design of a netlist that is linked with its cells, with the loads and Elmore sums of its nets and sinks, and the slew of its
    /// input ports in attoseconds.
    pub(crate) fn new(
        alloc: Global,
        loaded: &'a LoadedNetlist<'a, C>,
        pins: &PinSinks,
        beyond: Beyond,
        mode: WireSlew,
        slew: u64,
    ) -> Result<Design<'a, C>, OutOfMemory>
        requires starts { ArePinStarts loaded.now.linked.now.netlist pins.now.starts.items }
        requires places { ArePlaces loaded.now.linked.now.netlist pins.now.starts.items pins.now.places.items }
        requires slew { slew ≤ most }
        ensures { IfOk result (λ design. design ≡ source_in loaded.now C.COUNT beyond mode slew) }
    {
        let first = first_corner::<C>();
        let arcs = all_arcs(alloc, loaded.linked)?;
        let flat = flat_arcs(alloc, loaded.linked, &arcs, first)?;
        let sinks = related_sinks(alloc, loaded.linked, &arcs, first, pins)?;
        Ok(Design {
            loaded,
            beyond,
            mode,
            slew,
            arcs,
            flat,
            sinks,
        })
    }

    /// The netlist.
    pub(crate) fn netlist(&self) -> &Netlist
        ensures netlist { result.now ≡ self.now.netlist }
        ensures source { IsSource self.now }
    {
        &self.loaded.linked.netlist
    }

    /// The slew of the input ports, in attoseconds.
    pub(crate) fn slew(&self) -> u64
        ensures slew { result ≡ self.now.slew }
        ensures source { IsSource self.now }
        ensures sunk { All (IsSunk self.now.netlist self.now.cells) (arcs_in self.now) }
        ensures small { result ≤ most }
    {
        self.slew
    }

    /// What a look-up does past an axis.
    pub(crate) fn beyond(&self) -> Beyond
        ensures { result ≡ self.now.beyond }
    {
        self.beyond
    }

    /// What a wire does to a slew.
    pub(crate) fn mode(&self) -> WireSlew
        ensures { result ≡ self.now.mode }
    {
        self.mode
    }

    /// How many corners there are.
    pub(crate) fn corner_count(&self) -> usize
        ensures count { result ≡ self.now.count }
        ensures corners { result ≡ C.COUNT }
    {
        let _ = &self.mode;
        C::COUNT
    }

    /// The corner of a number.
    pub(crate) fn corner(&self, number: usize) -> C::Index
        requires { number < self.now.count }
        ensures { C.number_of result ≡ number }
    {
        let _ = &self.mode;
        corner_at::<C>(number)
    }

    /// The arcs of all instances.
    pub(crate) fn arcs(&self) -> &[ArcAt]
        ensures arcs { result.now ≡ arcs_in self.now }
        ensures there { All (IsArcAt self.now.netlist self.now.cells) (arcs_in self.now) }
    {
        self.arcs.as_slice()
    }

    /// The same between nets.
    pub(crate) fn flat(&self) -> &[FlatArc]
        ensures flat { result.now ≡ flat_in self.now }
        ensures nets { HaveNets (length self.now.netlist.nets) result.now }
        ensures many { length result.now ≡ length (arcs_in self.now) }
        ensures there { All (IsArcAt self.now.netlist self.now.cells) (arcs_in self.now) }
        ensures sunk { All (IsSunk self.now.netlist self.now.cells) (arcs_in self.now) }
    {
        self.flat.as_slice()
    }

    // The net of the related pin of an arc.
    fn source(&self, arc: usize) -> Option<usize>
        requires { arc < length (arcs_in self.now) }
        ensures net { result ≡ (flat_at self.now.netlist self.now.cells (arc_number self.now arc)).source }
        ensures within { IfSome result (λ net. net < length self.now.netlist.nets) }
    {
        self.flat[arc].source
    }

    // Which sink of its net the related pin of an arc is.
    #[tactic(auto, using(crate::proofs::Designing::sunk_at))]
    fn related_sink(&self, arc: usize) -> usize
        requires { arc < length (arcs_in self.now) }
        ensures sink { result ≡ related_sink self.now.netlist self.now.cells (arc_number self.now arc) }
        ensures sunk { IsSunk self.now.netlist self.now.cells (arc_number self.now arc) }
    {
        self.sinks[arc]
    }

    /// The look-ups of an edge of an arc at a corner, for a slew of its related pin in attoseconds. They are at most 64 steps.
    pub(crate) fn lookups<L: Ledger>(
        &self,
        arc: usize,
        edge: Edge,
        slew: u64,
        corner: C::Index,
        steps: &mut Steps<L>,
    ) -> Option<EdgeLookups>
        requires arc { arc < length (arcs_in self.now) }
        requires slew { slew ≤ most }
        ensures value { result ≡ lookups_at self.now (C.number_of corner) (arc_number self.now arc) edge slew }
        ensures small { IfSome result (λ looked. IfOk looked.transition (λ value. unsigned_abs value ≤ most)) }
        ensures steps { steps.new ≤ steps.old + 64 }
    {
        let net = self.flat[arc].target?;
        let arc = cell_arc(self.loaded.linked, self.arcs[arc], corner);
        let tables = tables_of(arc, edge)?;
        let load = self.loaded.nets.load(net, corner);
        Some(look_up_both(tables, slew, load, self.beyond, steps))
    }

    /// The transition at an edge of an arc's output at a corner, for a slew of its related pin, both in attoseconds. None where a
    /// look-up of the edge is refused. It is at most 64 steps.
    pub(crate) fn transition<L: Ledger>(
        &self,
        arc: usize,
        edge: Edge,
        slew: u64,
        corner: C::Index,
        steps: &mut Steps<L>,
    ) -> Option<u64>
        requires arc { arc < length (arcs_in self.now) }
        requires slew { slew ≤ most }
        ensures value { result ≡ look_at self.now (C.number_of corner) arc edge slew }
        ensures small { IfSome result (λ made. made ≤ most) }
        ensures steps { steps.new ≤ steps.old + 64 }
    {
        let net = self.flat[arc].target?;
        let arc = cell_arc(self.loaded.linked, self.arcs[arc], corner);
        let tables = tables_of(arc, edge)?;
        let load = self.loaded.nets.load(net, corner);
        transition_of(tables, slew, load, self.beyond, steps)
    }

    /// The Elmore sum of a sink of a net at a corner, in 10^-27 s.
    pub(crate) fn elmore(&self, net: usize, sink: usize, corner: C::Index) -> u128
        requires net { net < length self.now.netlist.nets }
        requires sink { sink < length (net_at self.now.netlist net).sinks }
        ensures value { result ≡ elmore_at self.now.count self.now.times net sink (C.number_of corner) }
        ensures small { result < elmore_limit }
    {
        self.loaded.nets.elmore(net, sink, corner)
    }

    /// The slew of a sink of a net at a corner, for a slew of the driver of the net, both in attoseconds. None past 10^12.
    pub(crate) fn behind(&self, net: usize, sink: usize, corner: C::Index, slew: u64) -> Option<u64>
        requires net { net < length self.now.netlist.nets }
        requires sink { sink < length (net_at self.now.netlist net).sinks }
        requires slew { slew ≤ most }
        ensures value { result ≡ behind_wire self.now (C.number_of corner) net sink slew }
        ensures small { IfSome result (λ made. made ≤ most) }
    {
        slew_behind(self.mode, self.elmore(net, sink, corner), slew)
    }

    /// The slew of the related pin of an arc at a corner, for a slew of the driver of its net, both in attoseconds. None past 10^12.
    pub(crate) fn wire(&self, arc: usize, slew: u64, corner: C::Index) -> Option<u64>
        requires arc { arc < length (arcs_in self.now) }
        requires slew { slew ≤ most }
        ensures value { result ≡ wire_at self.now (C.number_of corner) arc slew }
        ensures small { IfSome result (λ made. made ≤ most) }
    {
        let net = self.source(arc)?;
        self.behind(net, self.related_sink(arc), corner, slew)
    }
}
