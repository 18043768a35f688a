//! A netlist with its slews.
ghost use Rattle.std.specs.Prelude.{◌≡◌, ◌+◌, ◌*◌, ◌<◌, ◌≤◌, if◌then◌else◌, length, slice_get, Some};
ghost use Rattle.cell_models.specs.CornerCells.{arcs_at, AreCornerCells};
ghost use Rattle.cell_models.specs.NamedSets.{set_cells};
ghost use Rattle.netlist_link.specs.FlatNetlist.{instance_at};
ghost use Rattle.slew_order.specs.FlatArcs.{IsArcAt};
ghost use Rattle.slew_order.specs.Slews.{AreTablesOf};
ghost use Rattle.annotation_rows.specs.CellPaths.{arc_in};
ghost use Rattle.annotation_rows.specs.PathRows.{IsTimed, arc_delay, arc_has, cell_arcs, cell_name, timed_of};
ghost use Rattle.annotation_rows.specs.SdfEnds.{pin_count, pin_sdf};

use crate::cell_paths::PinPair;
use crate::sdf_ends::pin_sdf;
use crate::spelled_netlist::SpelledNetlist;
use cell_models::{CellSet, CellSets, Edge};
use corner_set::{CornerSet, corner_at, first_corner};
use edge_io::{Steps, Text};
use netlist_link::Netlist;
use slew_order::{ArcAt, LoadedNetlist, Slews};
use std::marker::Model;
use std::sync::ledger::Ledger;

/// A netlist that is linked with its cells, the loads and Elmore sums of its nets, and its slews. Contracts see what the slews come
/// from, and the states of the nets.
#[derive(Drop)]
pub(crate) struct TimedNetlist<'a, C: CornerSet> {
    spelled: &'a SpelledNetlist<'a, C>,
    slews: &'a Slews<C>,
}

impl<'a, C: CornerSet> Model for TimedNetlist<'a, C> {
    ghost use Rattle.annotation_rows.specs.PathRows.{TimedDesign, IsTimed, timed_of};

    ghost Value = { TimedDesign };

    ghost view = { λ t. timed_of t.spelled.now.linked.now.netlist t.spelled.now.linked.now.cells C.COUNT t.spelled.now.nets.now t.slews.now };

    ghost invariant = { λ t. IsTimed (timed_of t.spelled.now.linked.now.netlist t.spelled.now.linked.now.cells C.COUNT
        t.spelled.now.nets.now t.slews.now) };
}

impl<'a, C: CornerSet> TimedNetlist<'a, C> {
    pub(crate) fn new(
        spelled: &'a SpelledNetlist<'a, C>,
        slews: &'a Slews<C>,
    ) -> TimedNetlist<'a, C>
        requires { AreTablesOf spelled.now.linked.now.netlist C.COUNT slews.now }
        ensures { result ≡ timed_of spelled.now.linked.now.netlist spelled.now.linked.now.cells C.COUNT spelled.now.nets.now slews.now }
    {
        TimedNetlist { spelled, slews }
    }

    /// The netlist.
    pub(crate) fn netlist(&self) -> &Netlist
        ensures netlist { result.now ≡ self.now.source.netlist }
        ensures timed { IsTimed self.now }
    {
        &self.spelled.linked.netlist
    }

    /// The cells.
    pub(crate) fn cells(&self) -> &CellSets<C>
        ensures cells { result.now ≡ self.now.source.cells }
        ensures timed { IsTimed self.now }
    {
        &self.spelled.linked.cells
    }

    /// How many corners there are.
    pub(crate) fn corner_count(&self) -> usize
        ensures count { result ≡ self.now.source.count }
        ensures corners { result ≡ C.COUNT }
    {
        let _ = &self.spelled;
        C::COUNT
    }

    /// The corner of a number.
    pub(crate) fn corner(&self, number: usize) -> C::Index
        requires { number < self.now.source.count }
        ensures { C.number_of result ≡ number }
    {
        let _ = &self.spelled;
        corner_at::<C>(number)
    }

    /// The cell of an instance.
    #[tactic(auto, using(crate::proofs::EndsThere::cell_there, crate::proofs::CellArcs::arcs_are, crate::proofs::CellArcs::cell_is))]
    pub(crate) fn cell_of(&self, instance: usize) -> &CellSet<C>
        requires { instance < length self.now.source.netlist.instances }
        ensures arcs { arcs_at result.now 0 ≡ cell_arcs self.now instance }
        ensures cell { slice_get (set_cells self.now.source.cells) (instance_at self.now.source.netlist instance).cell ≡ Some result.now }
        ensures whole { AreCornerCells C.COUNT result.now }
    {
        let cell = self
            .spelled
            .linked
            .cells
            .set(self.spelled.linked.netlist.cell_of(instance));
        // what it keeps
        let _ = cell.arc_count();
        cell
    }

    /// How many arcs an instance has.
    pub(crate) fn arc_count(&self, instance: usize) -> usize
        requires { instance < length self.now.source.netlist.instances }
        ensures { result ≡ length (cell_arcs self.now instance) }
    {
        self.cell_of(instance).arc_count()
    }

    /// The name of the cell of an instance.
    #[tactic(auto, using(crate::proofs::EndsThere::cell_there, crate::proofs::CellArcs::name_is))]
    pub(crate) fn cell_name(&self, instance: usize) -> &Text
        requires { instance < length self.now.source.netlist.instances }
        ensures { result.now ≡ cell_name self.now instance }
    {
        self.spelled
            .linked
            .cells
            .name(self.spelled.linked.netlist.cell_of(instance))
    }

    /// The pins that an arc of an instance leads from and to.
    #[tactic(auto, using(crate::proofs::CellArcs::arc_is, crate::proofs::CellArcs::pin_there))]
    pub(crate) fn pins_of(&self, at: ArcAt) -> PinPair
        requires at { IsArcAt self.now.source.netlist self.now.source.cells at }
        ensures from { result.from ≡ (arc_in (cell_arcs self.now at.instance) at.arc).from }
        ensures to { result.to ≡ (arc_in (cell_arcs self.now at.instance) at.arc).to }
        ensures from_there { result.from < pin_count self.now.source.cells self.now.source.netlist at.instance }
        ensures to_there { result.to < pin_count self.now.source.cells self.now.source.netlist at.instance }
    {
        let arc = self.cell_of(at.instance).arc(at.arc, first_corner::<C>());
        PinPair {
            from: arc.from,
            to: arc.to,
        }
    }

    /// The name of a pin of an instance as SDF spells it.
    pub(crate) fn pin_sdf(&self, instance: usize, pin: usize) -> &[u8]
        requires instance { instance < length self.now.source.netlist.instances }
        requires pin { pin < pin_count self.now.source.cells self.now.source.netlist instance }
        ensures { result.now ≡ pin_sdf self.now.source.cells self.now.source.netlist instance pin }
    {
        pin_sdf(self.spelled, instance, pin)
    }

    // Whether an arc of an instance has an edge.
    #[tactic(auto, using(crate::proofs::CellArcs::has_is))]
    fn has_edge(&self, at: ArcAt, edge: Edge) -> bool
        requires at { IsArcAt self.now.source.netlist self.now.source.cells at }
        ensures { result ≡ arc_has (arc_in (cell_arcs self.now at.instance) at.arc) edge }
    {
        let arc = self.cell_of(at.instance).arc(at.arc, first_corner::<C>());
        match edge {
            Edge::Rise => arc.rise.is_some(),
            Edge::Fall => arc.fall.is_some(),
        }
    }

    // The delay of an arc that has the edge. It is one look-up of at most 32 steps.
    #[tactic(auto, using(crate::proofs::ArcDelays::delay_is, crate::proofs::ArcDelays::no_value))]
    fn look_up<L: Ledger>(
        &self,
        at: ArcAt,
        edge: Edge,
        number: usize,
        steps: &mut Steps<L>,
    ) -> Option<i128>
        requires at { IsArcAt self.now.source.netlist self.now.source.cells at }
        requires corner { number < self.now.source.count }
        ensures delay { result ≡ arc_delay self.now at.instance at.arc edge number }
        ensures steps { steps.new ≤ steps.old + 32 }
    {
        let corner = self.corner(number);
        let loaded = LoadedNetlist {
            linked: self.spelled.linked,
            nets: self.spelled.nets,
        };
        match self.slews.delay(&loaded, at, edge, corner, steps) {
            Some(delay) => Some(delay.0),
            None => None,
        }
    }

    /// The delay of an arc of an instance at an edge and a corner, in femtoseconds, if it has a worst input slew there. It is one look-up
    /// of at most 32 steps, and none where the arc has not the edge.
    #[tactic(auto, using(crate::proofs::ArcDelays::no_edge, crate::proofs::ArcDelays::printed))]
    pub(crate) fn delay<L: Ledger>(
        &self,
        at: ArcAt,
        edge: Edge,
        number: usize,
        steps: &mut Steps<L>,
    ) -> Option<i128>
        requires at { IsArcAt self.now.source.netlist self.now.source.cells at }
        requires corner { number < self.now.source.count }
        ensures delay { result ≡ arc_delay self.now at.instance at.arc edge number }
        ensures steps { steps.new ≤ steps.old
            + 32 * (if arc_has (arc_in (cell_arcs self.now at.instance) at.arc) edge then 1 else 0) }
    {
        let _ = self.cell_of(at.instance);
        if !self.has_edge(at, edge) {
            return None;
        }
        self.look_up(at, edge, number, steps)
    }
}
