//! Small netlists, worked by hand: half of 20 and 10 is 20, half of 20 and 20 is 30.
ghost use Rattle.std.specs.Prelude.{◌≡◌, ℕ, ◌<◌, ◌^◌, true, length, Some};
ghost use Rattle.slew_states.specs.declared.arcs.FlatArc.{FlatArc};
ghost use Rattle.slew_states.specs.Arcs.{HaveNets};

use crate::tests::halves::Halves;
use cell_models::ArcKind;
use edge_io::{OutOfMemory, Steps};
use graph_order::OrderEnd;
use slew_states::{Driver, EdgeStates, FlatArc, PinState, order_nets, settle};
use std::marker::Brand;
use std::sync::ledger::{Blank, Ledger};
use std::test::Fail;

/// The states of all nets, or a loop.
type Answer = Result<Vec<EdgeStates>, Vec<usize>>;

/// An arc with both edges.
const fn arc(source: Option<usize>, target: Option<usize>, kind: ArcKind) -> FlatArc {
    FlatArc {
        source,
        target,
        kind,
        rise: true,
        fall: true,
    }
}

/// Whether the net, if there is one, is one of so many.
fn is_in(net: Option<usize>, nets: usize) -> bool
    ensures { result ≡ true → (this : ℕ) → net ≡ Some this → this < nets }
{
    match net {
        Some(this) => this < nets,
        None => true,
    }
}

/// Whether the nets of all arcs are nets.
fn are_in(arcs: &[FlatArc], nets: usize) -> bool
    ensures { result ≡ true → HaveNets nets arcs.now }
{
    for arc in arcs {
        if !is_in(arc.source, nets) || !is_in(arc.target, nets) {
            return false;
        }
    }
    true
}

/// The states of a netlist at a slew of 20 at its ports, with a counter of its own.
fn states_by<L: Ledger>(
    rt: &HostRuntime,
    halves: Halves,
    arcs: &[FlatArc],
    drivers: &[Driver],
    blank: Blank,
) -> Result<Answer, OutOfMemory>
    requires name { blank.name ≡ L.name }
    requires parts { blank.parts ≡ L.parts }
    requires some_part { 0 < blank.parts }
    requires few { length drivers.now < 2 ^ 63 }
{
    if !are_in(arcs, drivers.len()) {
        return Err(OutOfMemory);
    }
    let mut steps = Steps::<L>::new(rt, blank);
    let order = match order_nets(rt.alloc(), drivers.len(), arcs) {
        Ok(order) => order,
        Err(OrderEnd::Cycle(cycle)) => return Ok(Err(cycle)),
        Err(OrderEnd::OutOfMemory) => return Err(OutOfMemory),
    };
    let states = settle(rt.alloc(), &halves, arcs, drivers, 20, &order, &mut steps)?;
    Ok(Ok(states))
}

/// The states of a netlist at a slew of 20 at its ports.
fn states_of(
    rt: &HostRuntime,
    halves: Halves,
    arcs: &[FlatArc],
    drivers: &[Driver],
) -> Result<Answer, OutOfMemory>
    requires { length drivers.now < 2 ^ 63 }
{
    states_by::<Brand>(rt, halves, arcs, drivers, Blank::new(1))
}

/// What stands for a state without a slew.
const ABSENT: u64 = 2_000_000_000_000;

const STUCK: u64 = 3_000_000_000_000;

fn number_of(state: PinState) -> u64 {
    match state {
        PinState::Known(slew) => slew,
        PinState::Absent => ABSENT,
        PinState::Stuck => STUCK,
    }
}

/// Whether these are the states of all nets, at a rise and at a fall.
fn are(states: &[EdgeStates], wants: &[(u64, u64)]) -> bool {
    if states.len() != wants.len() {
        return false;
    }
    for net in 0..states.len() {
        if number_of(states[net].rise) != wants[net].0 {
            return false;
        }
        if number_of(states[net].fall) != wants[net].1 {
            return false;
        }
    }
    true
}

/// No wire, and no limit that is met.
const PLAIN: Halves = Halves {
    limit: 1000,
    wire: 0,
};

#[test]
fn kinds_take_their_input_edges(rt: HostRuntime) -> Result<(), Fail> {
    let drivers = [Driver::Port, Driver::Pin, Driver::Pin];
    for (kind, want) in [
        (ArcKind::Positive, (20, 35)),
        (ArcKind::Negative, (25, 30)),
        (ArcKind::Both, (25, 35)),
        (ArcKind::RisingEdge, (20, 30)),
        (ArcKind::FallingEdge, (25, 35)),
    ] {
        // The port gives the net between 20 and 30.
        let arcs = [
            arc(Some(0), Some(1), ArcKind::Positive),
            arc(Some(1), Some(2), kind),
        ];
        let answer = states_of(&rt, PLAIN, &arcs, &drivers)?;
        let states = answer.ok().ok_or("states")?;
        assert!(rt; are(&states, &[(20, 20), (20, 30), want]));
    }
    Ok(())
}

#[test]
fn the_largest_of_all_arcs_counts(rt: HostRuntime) -> Result<(), Fail> {
    // Net 3 has no driver. A tied pin and an edge that an arc lacks give nothing.
    let drivers = [
        Driver::Port,
        Driver::Pin,
        Driver::Pin,
        Driver::Nothing,
        Driver::Pin,
    ];
    let mut only_rise = arc(Some(0), Some(4), ArcKind::Both);
    only_rise.fall = false;
    let arcs = [
        arc(Some(1), Some(2), ArcKind::Positive),
        arc(Some(0), Some(2), ArcKind::Positive),
        arc(None, Some(2), ArcKind::Both),
        arc(Some(3), Some(4), ArcKind::Both),
        arc(Some(2), None, ArcKind::Both),
        only_rise,
        arc(Some(0), Some(1), ArcKind::Positive),
    ];
    let answer = states_of(&rt, PLAIN, &arcs, &drivers)?;
    let states = answer.ok().ok_or("states")?;
    let wants = [(20, 20), (20, 30), (20, 35), (ABSENT, ABSENT), (20, ABSENT)];
    assert!(rt; are(&states, &wants));
    Ok(())
}

#[test]
fn what_is_refused_is_stuck(rt: HostRuntime) -> Result<(), Fail> {
    let drivers = [Driver::Port, Driver::Pin, Driver::Pin];
    let arcs = [
        arc(Some(1), Some(2), ArcKind::Positive),
        arc(Some(0), Some(1), ArcKind::Positive),
    ];
    for (limit, wire, second, third) in [
        // The fall of net 1 is 30, past the limit of the next arc.
        (25, 0, (20, 30), (20, STUCK)),
        // A wire adds 10: half of 30 and 10 is 25, half of 35 and 10 is 27.
        (1000, 10, (25, 35), (27, 42)),
        // A wire past the limit leaves a pin stuck.
        (1000, 999_999_999_990, (STUCK, STUCK), (STUCK, STUCK)),
    ] {
        let answer = states_of(&rt, Halves { limit, wire }, &arcs, &drivers)?;
        let states = answer.ok().ok_or("states")?;
        assert!(rt; are(&states, &[(20, 20), second, third]));
    }
    Ok(())
}

#[test]
fn a_loop_of_arcs_is_found(rt: HostRuntime) -> Result<(), Fail> {
    // A latch of two gates, and then a flip-flop that is fed from its own output: no arc goes from its data pin.
    let drivers = [Driver::Port, Driver::Pin, Driver::Pin];
    let latch = [
        arc(Some(0), Some(2), ArcKind::Negative),
        arc(Some(2), Some(1), ArcKind::Negative),
        arc(Some(1), Some(2), ArcKind::Negative),
    ];
    let found = states_of(&rt, PLAIN, &latch, &drivers)?
        .err()
        .ok_or("a loop")?;
    assert!(rt; found.as_slice() == [2, 1].as_slice());

    let flip_flop = [
        arc(Some(0), Some(1), ArcKind::RisingEdge),
        arc(Some(1), Some(2), ArcKind::Negative),
    ];
    assert!(rt; states_of(&rt, PLAIN, &flip_flop, &drivers)?.is_ok());
    Ok(())
}
