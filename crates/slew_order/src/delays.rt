//! The delays of arcs at their worst input slews.
ghost use Rattle.std.specs.Prelude.{◌≡◌, ◌+◌, ◌<◌, ◌≤◌, [], ◌∷◌, length, map, IfSome, IfNone};
ghost use Rattle.std.specs.Option.{option_map};
ghost use Rattle.cell_models.specs.declared.edge.Edge.TheVariants.{Rise, Fall};
ghost use Rattle.netlist_link.specs.FlatNetlist.{instance_at};
ghost use Rattle.slew_states.specs.InputEdges.{input_edges};
ghost use Rattle.slew_states.specs.PinState.{IsSmall, joined};
ghost use Rattle.slew_states.specs.Settled.{states_in};
ghost use Rattle.slew_order.specs.FlatArcs.{IsArcAt};
ghost use Rattle.slew_order.specs.LivePaths.{delay_at};
ghost use Rattle.slew_order.specs.Loaded.{source_in};
ghost use Rattle.slew_order.specs.NetStates.{states_at};
ghost use Rattle.slew_order.specs.PinSlews.{state_of_pin};
ghost use Rattle.slew_order.specs.Slews.{AreTablesOf};

use crate::arcs::ArcAt;
use crate::design::tables_of;
use crate::flattening::{cell_arc, if_loaded};
use crate::loaded::LoadedNetlist;
use crate::lookups::look_up;
use crate::slews::Slews;
use cell_models::{ArcKind, Edge};
use corner_set::CornerSet;
use delay_units::Femto;
use edge_io::Steps;
use nldm_lookup::Grain;
use slew_states::PinState;
use std::sync::ledger::Ledger;

// The input edge of an arc of a kind for an edge of its output, or none where both are.
fn sole_edge(kind: ArcKind, edge: Edge) -> Option<Edge>
    ensures sole { IfSome result (λ at. input_edges kind edge ≡ at ∷ []) }
    ensures both { IfNone result (input_edges kind edge ≡ Rise ∷ Fall ∷ []) }
{
    match (kind, edge) {
        (ArcKind::Positive, Edge::Rise)
        | (ArcKind::Negative, Edge::Fall)
        | (ArcKind::RisingEdge, _) => Some(Edge::Rise),
        (ArcKind::Positive, Edge::Fall)
        | (ArcKind::Negative, Edge::Rise)
        | (ArcKind::FallingEdge, _) => Some(Edge::Fall),
        (ArcKind::Both, _) => None,
    }
}

impl<C: CornerSet> Slews<C> {
    // Known with the worst slew of a pin for an edge of the output of an arc from it.
    fn worst_slew(
        &self,
        loaded: &LoadedNetlist<'_, C>,
        instance: usize,
        pin: usize,
        kind: ArcKind,
        edge: Edge,
        corner: C::Index,
    ) -> PinState
        requires tables { AreTablesOf loaded.now.linked.now.netlist C.COUNT self.now }
        requires instance { instance < length loaded.now.linked.now.netlist.instances }
        requires pin { pin < length (instance_at loaded.now.linked.now.netlist instance).nets }
        ensures value { result ≡ joined (map (state_of_pin loaded.now.linked.now.netlist C.COUNT loaded.now.nets.now self.now.mode
            (C.number_of corner)
            (states_in (states_at self.now.corners (C.number_of corner))) instance pin) (input_edges kind edge)) }
        ensures small { IsSmall result }
    {
        match sole_edge(kind, edge) {
            Some(at) => self.state(loaded, instance, pin, at, corner),
            None => {
                let rise = self.state(loaded, instance, pin, Edge::Rise, corner);
                let fall = self.state(loaded, instance, pin, Edge::Fall, corner);
                rise.join(fall)
            }
        }
    }

    /// The delay of an arc at an edge of its output and a corner, in femtoseconds, at the worst slew of its related pin and the load of
    /// the net of its output pin. None where the arc has not the edge, its output pin is not loaded, or no edge comes to its related
    /// pin. The netlist, its cells and the loads and Elmore sums are those that the slews are of. It is one look-up, of at most 32 steps.
    pub fn delay<L: Ledger>(
        &self,
        loaded: &LoadedNetlist<'_, C>,
        at: ArcAt,
        edge: Edge,
        corner: C::Index,
        steps: &mut Steps<L>,
    ) -> Option<Femto>
        requires tables { AreTablesOf loaded.now.linked.now.netlist C.COUNT self.now }
        requires at { IsArcAt loaded.now.linked.now.netlist loaded.now.linked.now.cells at }
        ensures delay { option_map (λ femto. femto.0) result
            ≡ delay_at (source_in loaded.now C.COUNT self.now.beyond self.now.mode self.now.slew) (C.number_of corner)
            (states_in (states_at self.now.corners (C.number_of corner))) at edge }
        ensures steps { steps.new ≤ steps.old + 32 }
    {
        let arc = cell_arc(loaded.linked, at, corner);
        let net = if_loaded(
            &loaded.linked.netlist,
            loaded.linked.netlist.net_of(at.instance, arc.to),
        )?;
        let tables = tables_of(arc, edge)?;
        let worst = self.worst_slew(loaded, at.instance, arc.from, arc.kind, edge, corner);
        let PinState::Known(slew) = worst else {
            return None;
        };
        let load = loaded.nets.load(net, corner);
        match look_up(&tables.delay, slew, load, Grain::Femto, self.beyond, steps) {
            Ok(delay) => Some(Femto(delay as i128)),
            Err(_) => None,
        }
    }
}
