//! The slews of a design.

ghost use Rattle.std.specs.Prelude.{◌≡◌, ◌<◌, length};
ghost use Rattle.netlist_link.specs.FlatNetlist.{instance_at};
ghost use Rattle.slew_states.specs.PinState.{IsSmall};
ghost use Rattle.slew_states.specs.Settled.{states_in};
ghost use Rattle.slew_order.specs.FlatArcs.{net_on};
ghost use Rattle.slew_order.specs.NetStates.{states_at};
ghost use Rattle.slew_order.specs.PinSlews.{IsSlewOf, state_of_pin};
ghost use Rattle.slew_order.specs.Slews.{AreTablesOf, tables_of};

use crate::loaded::LoadedNetlist;
use crate::net_states::NetStates;
use crate::sinks::{PinSinks, is_driver};
use crate::wires::state_behind;
use cell_models::Edge;
use corner_set::{Beyond, CornerSet, WireSlew};
use delay_units::Atto;
use slew_states::PinState;
use std::marker::{Model, PhantomData};

/// The slews of a design at all edges and corners. Contracts see the states of its nets, which sink of its net each pin is, what a look-up
/// does past an axis, what a wire does to a slew, and the slew of the input ports in attoseconds.
#[derive(Drop)]
pub struct Slews<C: CornerSet> {
    corners: Vec<NetStates>,
    pins: PinSinks,
    pub(crate) beyond: Beyond,
    mode: WireSlew,
    slew: u64,
    set: PhantomData<C>,
}

impl<C: CornerSet> Model for Slews<C> {
    ghost use Rattle.slew_order.specs.Slews.{SlewTables, tables_of};

    ghost Value = { SlewTables };

    ghost view = { λ s. tables_of s.corners.items s.pins.starts.items s.pins.places.items s.beyond s.mode s.slew };
}

impl<C: CornerSet> Slews<C> {
    /// The slews of these states of nets and places of pins.
    pub(crate) fn of(
        corners: Vec<NetStates>,
        pins: PinSinks,
        beyond: Beyond,
        mode: WireSlew,
        slew: u64,
    ) -> Slews<C>
        ensures { result ≡ tables_of corners.items pins.starts.items pins.places.items beyond mode slew }
    {
        Slews {
            corners,
            pins,
            beyond,
            mode,
            slew,
            set: PhantomData,
        }
    }

    /// The state of a pin of an instance, at an edge and a corner.
    pub(crate) fn state(
        &self,
        loaded: &LoadedNetlist<'_, C>,
        instance: usize,
        pin: usize,
        edge: Edge,
        corner: C::Index,
    ) -> PinState
        requires tables { AreTablesOf loaded.now.linked.now.netlist C.COUNT self.now }
        requires instance { instance < length loaded.now.linked.now.netlist.instances }
        requires pin { pin < length (instance_at loaded.now.linked.now.netlist instance).nets }
        ensures value { result ≡ state_of_pin loaded.now.linked.now.netlist C.COUNT loaded.now.nets.now self.now.mode (C.number_of corner)
            (states_in (states_at self.now.corners (C.number_of corner))) instance pin edge }
        ensures small { IsSmall result }
    {
        let Some(net) = loaded.linked.netlist.net_of(instance, pin) else {
            return PinState::Absent;
        };
        let states = self.corners[C::number(corner)].as_slice();
        let state = states[net].at(edge);
        if is_driver(loaded.linked.netlist.driver(net), instance, pin) {
            return state;
        }
        match self
            .pins
            .sink_of(&loaded.linked.netlist, instance, pin, net)
        {
            Some(sink) => state_behind(self.mode, loaded.nets.elmore(net, sink, corner), state),
            None => PinState::Absent,
        }
    }

    /// The slew at a pin of an instance, at an edge and a corner, in attoseconds, for the netlist and the loads and Elmore sums that the
    /// slews are of. None where no edge comes to the pin.
    pub fn at(
        &self,
        loaded: &LoadedNetlist<'_, C>,
        instance: usize,
        pin: usize,
        edge: Edge,
        corner: C::Index,
    ) -> Option<Atto>
        requires tables { AreTablesOf loaded.now.linked.now.netlist C.COUNT self.now }
        requires instance { instance < length loaded.now.linked.now.netlist.instances }
        requires pin { pin < length (instance_at loaded.now.linked.now.netlist instance).nets }
        ensures { IsSlewOf (state_of_pin loaded.now.linked.now.netlist C.COUNT loaded.now.nets.now self.now.mode (C.number_of corner)
            (states_in (states_at self.now.corners (C.number_of corner))) instance pin edge) result }
    {
        match self.state(loaded, instance, pin, edge, corner) {
            PinState::Known(slew) => Some(Atto(slew as i64)),
            _ => None,
        }
    }
}
