//! Small designs, worked by hand.
ghost use Rattle.std.specs.Prelude.{◌<◌, pos, ◌≤ℤ◌};
ghost use Rattle.net_delays.specs.NetTimes.{elmore_limit};

use crate::tests::asking::{
    ArcDelay, PinSlew, delays_are, design_of, loaded, set_first, slew_at, slews_are, slews_of,
};
use cell_models::{Edge, Part};
use corner_set::{Beyond, Single, WireSlew};
use design_phases::Design;
use edge_io::{OutOfMemory, Text};
use nldm_lookup::Which;
use slew_order::SlewEnd;
use std::alloc::Global;
use std::process::Abort;
use std::test::Fail;
use worked_files::INVERTER;

/// A flip-flop with an inverter back to its input D.
const FLIP_FLOP: &[u8] =
    b"module top (ck, q); input ck; output q; wire d; DFF u1 (.CK(ck), .D(d), .Q(q)); INV u2 (.A(q), .Z(d)); endmodule";

/// Two gates that are coupled crosswise.
const LATCH: &[u8] =
    b"module top (s, r, q, qn); input s, r; output q, qn; NAND2 u1 (.A(s), .B(qn), .Z(q)); NAND2 u2 (.A(r), .B(q), .Z(qn)); endmodule";

/// A gate with one input that is tied.
const TIED: &[u8] =
    b"module top (a, z); input a; output z; XOR u1 (.A(a), .B(1'b0), .Z(z)); endmodule";

/// A chain of 64 gates with two inputs on one net each: there are 2^64 paths through it.
fn reconvergent(alloc: Global) -> Result<Text, OutOfMemory> {
    let mut netlist = Text::from_bytes(alloc, b"module top (n00, n64); input n00; output n64; ")?;
    for gate in 0..64u8 {
        let from = [b'0' + gate / 10, b'0' + gate % 10];
        let to = [b'0' + (gate + 1) / 10, b'0' + (gate + 1) % 10];
        netlist.push_all(b"XOR u")?;
        netlist.push_all(&to)?;
        netlist.push_all(b" (.A(n")?;
        netlist.push_all(&from)?;
        netlist.push_all(b"), .B(n")?;
        netlist.push_all(&from)?;
        netlist.push_all(b"), .Z(n")?;
        netlist.push_all(&to)?;
        netlist.push_all(b")); ")?;
    }
    netlist.push_all(b"endmodule")?;
    Ok(netlist)
}

/// The design of a netlist has these slews and delays, where its input ports have 20 ps.
fn answers(
    rt: &HostRuntime,
    abort: &impl Abort,
    netlist: &[u8],
    pins: &[PinSlew],
    arcs: &[ArcDelay],
) -> Result<(), Fail> {
    match design_of(rt.alloc(), netlist)? {
        Some(design) => design_answers(rt, abort, &design, pins, arcs),
        None => Err(Fail::from("design")),
    }
}

fn design_answers(
    rt: &HostRuntime,
    abort: &impl Abort,
    design: &Design<Single>,
    pins: &[PinSlew],
    arcs: &[ArcDelay],
) -> Result<(), Fail> {
    let nets = loaded(rt.alloc(), design.netlist())?;
    match slews_of(
        rt,
        design,
        &nets,
        20_000_000,
        Beyond::Refuse,
        WireSlew::Same,
    ) {
        Ok(slews) => {
            slews_are(abort, &slews, design, &nets, pins);
            delays_are(rt, abort, &slews, design, &nets, arcs);
            Ok(())
        }
        Err(_) => Err(Fail::from("slews")),
    }
}

/// What is said of a design whose input ports have a slew in attoseconds: the rise at the first pin, or why there are no slews. The
/// wire to the first sink has an Elmore sum in 10^-27 s.
fn said(
    rt: &HostRuntime,
    netlist: &[u8],
    slew: i64,
    beyond: Beyond,
    mode: WireSlew,
    elmore: u128,
) -> Result<Result<Option<i64>, SlewEnd>, Fail>
    requires not_negative { pos 0 ≤ℤ slew }
    requires small { slew ≤ℤ pos 1000000000000 }
    requires short { elmore < elmore_limit }
{
    match design_of(rt.alloc(), netlist)? {
        Some(design) => design_said(rt, &design, slew, beyond, mode, elmore),
        None => Err(Fail::from("design")),
    }
}

fn design_said(
    rt: &HostRuntime,
    design: &Design<Single>,
    slew: i64,
    beyond: Beyond,
    mode: WireSlew,
    elmore: u128,
) -> Result<Result<Option<i64>, SlewEnd>, Fail>
    requires not_negative { pos 0 ≤ℤ slew }
    requires small { slew ≤ℤ pos 1000000000000 }
    requires short { elmore < elmore_limit }
{
    let mut nets = loaded(rt.alloc(), design.netlist())?;
    set_first(design.netlist(), &mut nets, elmore);
    match slews_of(rt, design, &nets, slew, beyond, mode) {
        Ok(slews) => Ok(Ok(slew_at(&slews, design, &nets, 0, 0, Edge::Rise))),
        Err(end) => Ok(Err(end)),
    }
}

/// The Elmore sum of a wire whose own slew is 15 ps.
const OWN_15_PS: u128 = 6_827_492_035_000_000;

#[test]
fn a_flip_flop_ends_a_path(rt: HostRuntime) -> Result<(), Fail> {
    let pins = [
        (0, 0, Edge::Rise, Some(20_000_000)),
        (0, 1, Edge::Rise, Some(13_600_000)),
        (0, 1, Edge::Fall, Some(12_000_000)),
        (0, 2, Edge::Rise, Some(15_000_000)),
        (0, 3, Edge::Rise, None),
        (1, 0, Edge::Fall, Some(14_000_000)),
        (1, 1, Edge::Rise, Some(13_600_000)),
    ];
    let arcs = [
        (0, 0, Edge::Rise, Some(100_000)),
        (0, 1, Edge::Rise, None),
        (1, 0, Edge::Rise, Some(22_000)),
        (1, 0, Edge::Fall, Some(11_500)),
    ];
    answers(&rt, &rt, FLIP_FLOP, &pins, &arcs)
}

#[test]
fn a_tied_pin_gives_nothing(rt: HostRuntime) -> Result<(), Fail> {
    let pins = [
        (0, 1, Edge::Rise, None),
        (0, 2, Edge::Rise, Some(11_000_000)),
        (0, 2, Edge::Fall, Some(10_000_000)),
    ];
    let arcs = [(0, 0, Edge::Rise, Some(50_000)), (0, 1, Edge::Rise, None)];
    answers(&rt, &rt, TIED, &pins, &arcs)
}

#[test]
fn reconvergent_gates_have_the_slews_of_their_tables(rt: HostRuntime) -> Result<(), Fail> {
    let netlist = reconvergent(rt.alloc())?;
    let pins = [
        (63, 2, Edge::Rise, Some(11_000_000)),
        (63, 2, Edge::Fall, Some(10_000_000)),
    ];
    let arcs = [
        (63, 0, Edge::Rise, Some(50_000)),
        (63, 0, Edge::Fall, Some(40_000)),
    ];
    answers(&rt, &rt, netlist.bytes(), &pins, &arcs)
}

#[test]
fn a_latch_is_a_cycle_from_its_least_net(rt: HostRuntime) -> Result<(), Fail> {
    match said(&rt, LATCH, 20_000_000, Beyond::Refuse, WireSlew::Same, 0)? {
        Err(SlewEnd::Loop(cycle)) => {
            assert!(rt; cycle.len() == 2);
            // Net q stands before net qn, and pin B of u2 is on it.
            let (first, second) = (cycle.get(0), cycle.get(1));
            assert!(rt; first.instance == 1 && first.arc == 1);
            assert!(rt; second.instance == 0 && second.arc == 1);
            Ok(())
        }
        _ => Err(Fail::from("a cycle")),
    }
}

#[test]
fn the_first_look_up_outside_is_told(rt: HostRuntime) -> Result<(), Fail> {
    match said(&rt, INVERTER, 40_000_000, Beyond::Refuse, WireSlew::Same, 0)? {
        Err(
            SlewEnd::Outside {
                at,
                edge,
                corner: _,
                part,
                outside,
            },
        ) => {
            assert!(rt; at.instance == 0 && at.arc == 0);
            assert!(rt; matches!(edge, Edge::Rise) && matches!(part, Part::Delay));
            assert!(rt; matches!(outside.axis, Which::Slew) && outside.value == 40_000_000);
            Ok(())
        }
        _ => Err(Fail::from("outside")),
    }
}

#[test]
fn a_wire_joins_its_own_slew(rt: HostRuntime) -> Result<(), Fail> {
    for (mode, want) in [(WireSlew::Same, 20_000_000), (WireSlew::Rss, 25_000_000)] {
        match said(&rt, INVERTER, 20_000_000, Beyond::Refuse, mode, OWN_15_PS)? {
            Ok(slew) => assert!(rt; slew == Some(want)),
            Err(_) => return Err(Fail::from("slews")),
        }
    }
    Ok(())
}

#[test]
fn a_slew_past_the_limit_is_told(rt: HostRuntime) -> Result<(), Fail> {
    match said(
        &rt,
        INVERTER,
        1_000_000_000_000,
        Beyond::Edge,
        WireSlew::Rss,
        OWN_15_PS,
    )? {
        Err(
            SlewEnd::SlewLimit {
                net,
                sink,
                edge,
                corner: _,
                slew,
                elmore: _,
            },
        ) => {
            assert!(rt; net == 0 && sink == 0 && matches!(edge, Edge::Rise));
            assert!(rt; slew.0 == 1_000_000_000_000);
            Ok(())
        }
        _ => Err(Fail::from("a limit")),
    }
}
