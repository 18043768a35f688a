//! Which sink of its net each pin is.
ghost use Rattle.std.specs.Prelude.{◌≡◌, ◌+◌, ◌<◌, ◌↔◌, length, map, Some, All, IfOk, IfSome, OnOk, IsTrue};
ghost use Rattle.netlist_link.specs.FlatNetlist.{instance_at, net_at};
ghost use Rattle.slew_order.specs.FlatArcs.{IsArcAt, net_on};
ghost use Rattle.net_delays.specs.NetTimes.{start_in};
ghost use Rattle.slew_order.specs.Sinks.{ArePinStarts, IsSunk, is_pin, pin_place, related_sink};
ghost use Rattle.slew_order.specs.PinSlews.{is_driver, sink_of};
ghost use Rattle.slew_order.specs.SinkPlaces.{ArePlaces, ArePlacedTo};

use crate::arcs::ArcAt;
use crate::flattening::cell_arc;
use corner_set::CornerSet;
use edge_io::OutOfMemory;
use edge_io::lists::push;
use netlist_link::{End, LinkedNetlist, Netlist};
use std::alloc::Global;

/// Which sink of its net each pin is: the pins of an instance begin where it starts.
#[derive(Drop)]
pub(crate) struct PinSinks {
    pub(crate) starts: Vec<usize>,
    pub(crate) places: Vec<usize>,
}

// Whether an end is a pin of an instance.
fn is_pin(end: End, instance: usize, pin: usize) -> bool
    ensures { result ≡ is_pin instance pin end }
{
    match end {
        End::Port(_) => false,
        End::Pin {
            instance: this,
            pin: at,
        } => this == instance && at == pin,
    }
}

/// Whether a pin of an instance is this driver of a net.
pub(crate) fn is_driver(driver: Option<End>, instance: usize, pin: usize) -> bool
    ensures { result ≡ is_driver instance pin driver }
{
    match driver {
        Some(end) => is_pin(end, instance, pin),
        None => false,
    }
}

impl PinSinks {
    /// Which sink of a net a pin of an instance on it is, if it is one.
    #[tactic(auto, using(crate::proofs::SinkPlacing::kept_place))]
    pub(crate) fn sink_of(
        &self,
        netlist: &Netlist,
        instance: usize,
        pin: usize,
        net: usize,
    ) -> Option<usize>
        requires starts { ArePinStarts netlist.now self.now.starts.items }
        requires places { ArePlaces netlist.now self.now.starts.items self.now.places.items }
        requires instance { instance < length netlist.now.instances }
        requires pin { pin < length (instance_at netlist.now instance).nets }
        requires net { net < length netlist.now.nets }
        requires on { net_on netlist.now instance pin ≡ Some net }
        ensures value { result ≡ sink_of netlist.now instance pin net }
        ensures within { IfSome result (λ sink. sink < length (net_at netlist.now net).sinks) }
    {
        let sink = place_of(netlist, &self.starts, &self.places, instance, pin);
        if_sink(netlist, instance, pin, net, sink)
    }
}

// The place of a pin on a net in the table of sinks.
fn place_of(
    netlist: &Netlist,
    starts: &[usize],
    places: &[usize],
    instance: usize,
    pin: usize,
) -> usize
    requires starts { ArePinStarts netlist.now starts.now }
    requires places { ArePlaces netlist.now starts.now places.now }
    requires instance { instance < length netlist.now.instances }
    requires pin { pin < length (instance_at netlist.now instance).nets }
    ensures { result ≡ start_in places.now (start_in starts.now instance + pin) }
{
    places[starts[instance] + pin]
}

// The sink of a place, if a pin is that one. It is the first place of the pin among the sinks, if it is one.
#[tactic(auto, using(crate::proofs::SinkPlacing::sink_found, crate::proofs::SinkPlacing::sink_past, crate::proofs::SinkPlacing::sink_other))]
fn if_sink(netlist: &Netlist, instance: usize, pin: usize, net: usize, sink: usize) -> Option<usize>
    requires net { net < length netlist.now.nets }
    requires sink { pin_place instance pin (net_at netlist.now net).sinks < length (net_at netlist.now net).sinks
        → sink ≡ pin_place instance pin (net_at netlist.now net).sinks }
    ensures value { result ≡ sink_of netlist.now instance pin net }
    ensures within { IfSome result (λ sink. sink < length (net_at netlist.now net).sinks) }
{
    if sink >= netlist.sink_count(net) {
        return None;
    }
    if is_pin(netlist.sink(net, sink), instance, pin) {
        Some(sink)
    } else {
        None
    }
}

/// Which sink of its net each pin of a netlist is.
pub(crate) fn pin_sinks(alloc: Global, netlist: &Netlist) -> Result<PinSinks, OutOfMemory>
    ensures starts { IfOk result (λ pins. ArePinStarts netlist.now pins.starts.items) }
    ensures places { IfOk result (λ pins. ArePlaces netlist.now pins.starts.items pins.places.items) }
{
    let starts = pin_starts(alloc, netlist)?;
    let places = sink_places(alloc, netlist, &starts)?;
    Ok(PinSinks { starts, places })
}

/// For each arc which sink of its net its related pin is; 0 where that pin is on no net.
pub(crate) fn related_sinks<C: CornerSet>(
    alloc: Global,
    linked: &LinkedNetlist<C>,
    arcs: &[ArcAt],
    corner: C::Index,
    pins: &PinSinks,
) -> Result<Vec<usize>, OutOfMemory>
    requires arcs { All (IsArcAt linked.now.netlist linked.now.cells) arcs.now }
    requires starts { ArePinStarts linked.now.netlist pins.now.starts.items }
    requires places { ArePlaces linked.now.netlist pins.now.starts.items pins.now.places.items }
    ensures sinks { IfOk result (λ sinks. sinks.items ≡ map (related_sink linked.now.netlist linked.now.cells) arcs.now) }
    ensures sunk { OnOk result (All (IsSunk linked.now.netlist linked.now.cells) arcs.now) }
{
    let mut sinks = Vec::with_capacity(alloc, arcs.len())?;
    for place in 0..arcs.len() {
        let sink = related_sink(linked, arcs[place], corner, &pins.starts, &pins.places);
        push(&mut sinks, sink)?;
    }
    Ok(sinks)
}

// For each instance how many pins the instances before have, and then the number of all pins.
#[tactic(auto, using(crate::proofs::PinStarts::no_pins, crate::proofs::PinStarts::more_pins, crate::proofs::PinStarts::all_pins))]
fn pin_starts(alloc: Global, netlist: &Netlist) -> Result<Vec<usize>, OutOfMemory>
    ensures { IfOk result (λ starts. ArePinStarts netlist.now starts.items) }
{
    let mut starts = Vec::new(alloc);
    let mut pins: usize = 0;
    for instance in 0..netlist.instance_count() {
        push(&mut starts, pins)?;
        let Some(sum) = pins.checked_add(netlist.pin_count(instance)) else {
            return Err(OutOfMemory);
        };
        pins = sum;
    }
    push(&mut starts, pins)?;
    Ok(starts)
}

// For each pin of each instance which sink of its net it is.
#[tactic(auto, using(crate::proofs::Placing::none_before, crate::proofs::Placing::begin_net, crate::proofs::Placing::end_net, crate::proofs::Placing::all_placed))]
fn sink_places(
    alloc: Global,
    netlist: &Netlist,
    starts: &[usize],
) -> Result<Vec<usize>, OutOfMemory>
    requires { ArePinStarts netlist.now starts.now }
    ensures { IfOk result (λ places. ArePlaces netlist.now starts.now places.items) }
{
    let pins = starts[netlist.instance_count()];
    let mut places: Vec<usize> = vec![in alloc; 0; pins]?;
    for net in 0..netlist.net_count() {
        place_sinks(netlist, starts, net, &mut places);
    }
    Ok(places)
}

// Puts the places of the sinks of a net where their pins are. The first place of a pin is put last.
fn place_sinks(netlist: &Netlist, starts: &[usize], net: usize, places: &mut Vec<usize>)
    requires starts { ArePinStarts netlist.now starts.now }
    requires net { net < length netlist.now.nets }
    requires before { ArePlacedTo netlist.now starts.now net (length (net_at netlist.now net).sinks) places.old.items }
    ensures { ArePlacedTo netlist.now starts.now net 0 places.new.items }
{
    let mut sink = netlist.sink_count(net);
    while sink > 0 {
        sink -= 1;
        place_sink(netlist, starts, net, sink, places);
    }
}

// Puts the place of a sink where its pin is, if it is one.
#[tactic(auto, using(crate::proofs::Placing::placed_more, crate::proofs::Placing::skip_port, crate::proofs::Placing::skip_pin, crate::proofs::Placing::pin_below))]
fn place_sink(netlist: &Netlist, starts: &[usize], net: usize, sink: usize, places: &mut Vec<usize>)
    requires starts { ArePinStarts netlist.now starts.now }
    requires net { net < length netlist.now.nets }
    requires sink { sink < length (net_at netlist.now net).sinks }
    requires before { ArePlacedTo netlist.now starts.now net (sink + 1) places.old.items }
    ensures { ArePlacedTo netlist.now starts.now net sink places.new.items }
{
    let End::Pin { instance, pin } = netlist.sink(net, sink) else {
        return;
    };
    if is_on(netlist, instance, pin, net) {
        places[starts[instance] + pin] = sink;
    }
}

// Whether an instance has a pin that is on a net.
fn is_on(netlist: &Netlist, instance: usize, pin: usize, net: usize) -> bool
    ensures { IsTrue result ↔ (net_on netlist.now instance pin ≡ Some net) }
{
    instance < netlist.instance_count()
        && pin < netlist.pin_count(instance)
        && netlist.net_of(instance, pin) == Some(net)
}

// Which sink of its net the related pin of an arc is.
#[tactic(auto, using(crate::proofs::Sinking::arc_sunk, crate::proofs::Sinking::pin_sunk, crate::proofs::Links::net_in, crate::proofs::Placing::place_below))]
fn related_sink<C: CornerSet>(
    linked: &LinkedNetlist<C>,
    at: ArcAt,
    corner: C::Index,
    starts: &[usize],
    places: &[usize],
) -> usize
    requires at { IsArcAt linked.now.netlist linked.now.cells at }
    requires starts { ArePinStarts linked.now.netlist starts.now }
    requires places { ArePlaces linked.now.netlist starts.now places.now }
    ensures sink { result ≡ related_sink linked.now.netlist linked.now.cells at }
    ensures sunk { IsSunk linked.now.netlist linked.now.cells at }
{
    let from = cell_arc(linked, at, corner).from;
    match linked.netlist.net_of(at.instance, from) {
        Some(_) => places[starts[at.instance] + from],
        None => 0,
    }
}
