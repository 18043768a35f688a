//! What is asked of small designs. Each net has a load of 1 fF, and no wire has an Elmore sum unless one is set.
ghost use Rattle.std.specs.Prelude.{◌≡◌, ◌<◌, pos, ◌≤ℤ◌, IfOk};
ghost use Rattle.net_delays.specs.NetTimes.{Fits, elmore_limit};
ghost use Rattle.slew_order.specs.Slews.{AreTablesOf};

use cell_models::Edge;
use corner_set::{Beyond, Single, WireSlew};
use delay_units::{Atto, Farads};
use design_phases::{Design, read_design};
use edge_io::{MemShelf, OutOfMemory, Steps, Text, TextList};
use net_delays::NetDelays;
use netlist_link::Netlist;
use slew_order::{ArcAt, LoadedNetlist, SlewEnd, Slews, propagate};
use std::alloc::Global;
use std::marker::Brand;
use std::process::Abort;
use std::sync::ledger::{Blank, Ledger};
use worked_files::LIBRARY;

/// An instance, a pin of it and an edge, and the slew there in attoseconds.
pub type PinSlew = (usize, usize, Edge, Option<i64>);

/// An instance, an arc of it and an edge, and the delay there in femtoseconds.
pub type ArcDelay = (usize, usize, Edge, Option<i128>);

/// The design of a netlist over the library.
pub fn design_of(alloc: Global, netlist: &[u8]) -> Result<Option<Design<Single>>, OutOfMemory> {
    let mut shelf = MemShelf::new(alloc, 1000);
    put(alloc, &mut shelf, b"a.v", netlist)?;
    put(alloc, &mut shelf, b"a.lib", LIBRARY)?;
    let mut libraries = TextList::new(alloc);
    libraries.push(Text::from_bytes(alloc, b"a.lib")?)?;
    let name = Text::from_bytes(alloc, b"a.v")?;
    let top = Text::from_bytes(alloc, b"top")?;
    Ok(read_design::<Single, MemShelf>(alloc, &mut shelf, &name, &top, &libraries).ok())
}

fn put(alloc: Global, shelf: &mut MemShelf, name: &[u8], bytes: &[u8]) -> Result<(), OutOfMemory> {
    let name = Text::from_bytes(alloc, name)?;
    let held = Text::from_bytes(alloc, bytes)?;
    shelf.put(name, held)
}

/// The loads of a netlist.
pub fn loaded(alloc: Global, netlist: &Netlist) -> Result<NetDelays<Single>, OutOfMemory>
    ensures { IfOk result (Fits netlist.now) }
{
    let mut nets = NetDelays::<Single>::new(alloc, netlist)?;
    load_all(netlist, &mut nets);
    Ok(nets)
}

fn load_all(netlist: &Netlist, nets: &mut NetDelays<Single>)
    requires { Fits netlist.now nets.old }
    ensures { Fits netlist.now nets.new }
{
    for net in 0..netlist.net_count() {
        nets.set_load(net, (), Farads(1_000_000));
    }
}

/// Sets the Elmore sum of the first sink of the first net, if it is there.
pub fn set_first(netlist: &Netlist, nets: &mut NetDelays<Single>, elmore: u128)
    requires fits { Fits netlist.now nets.old }
    requires small { elmore < elmore_limit }
    ensures { Fits netlist.now nets.new }
{
    if netlist.net_count() > 0 && netlist.sink_count(0) > 0 {
        nets.set_elmore(0, 0, (), elmore);
    }
}

fn slews_by<L: Ledger>(
    rt: &HostRuntime,
    design: &Design<Single>,
    nets: &NetDelays<Single>,
    slew: i64,
    beyond: Beyond,
    mode: WireSlew,
    blank: Blank,
) -> Result<Slews<Single>, SlewEnd>
    requires name { blank.name ≡ L.name }
    requires parts { blank.parts ≡ L.parts }
    requires some_part { 0 < blank.parts }
    requires fits { Fits design.now.netlist nets.now }
    requires not_negative { pos 0 ≤ℤ slew }
    requires small { slew ≤ℤ pos 1000000000000 }
    ensures { IfOk result (AreTablesOf design.now.netlist 1) }
{
    let mut steps = Steps::<L>::new(rt, blank);
    let with_loads = LoadedNetlist {
        linked: design.linked(),
        nets,
    };
    propagate(
        rt.alloc(),
        &with_loads,
        Atto(slew),
        beyond,
        mode,
        &mut steps,
    )
}

/// The slews of a design at a slew of its input ports in attoseconds, or why there are none.
pub fn slews_of(
    rt: &HostRuntime,
    design: &Design<Single>,
    nets: &NetDelays<Single>,
    slew: i64,
    beyond: Beyond,
    mode: WireSlew,
) -> Result<Slews<Single>, SlewEnd>
    requires fits { Fits design.now.netlist nets.now }
    requires not_negative { pos 0 ≤ℤ slew }
    requires small { slew ≤ℤ pos 1000000000000 }
    ensures { IfOk result (AreTablesOf design.now.netlist 1) }
{
    slews_by::<Brand>(rt, design, nets, slew, beyond, mode, Blank::new(1))
}

/// The slew at a pin in attoseconds.
pub fn slew_at(
    slews: &Slews<Single>,
    design: &Design<Single>,
    nets: &NetDelays<Single>,
    instance: usize,
    pin: usize,
    edge: Edge,
) -> Option<i64>
    requires tables { AreTablesOf design.now.netlist 1 slews.now }
    requires fits { Fits design.now.netlist nets.now }
{
    let netlist = design.netlist();
    if instance >= netlist.instance_count() || pin >= netlist.pin_count(instance) {
        return None;
    }
    let with_loads = LoadedNetlist {
        linked: design.linked(),
        nets,
    };
    let slew = slews.at(&with_loads, instance, pin, edge, ())?;
    Some(slew.0)
}

/// The slews at some pins are these.
pub fn slews_are(
    rt: &impl Abort,
    slews: &Slews<Single>,
    design: &Design<Single>,
    nets: &NetDelays<Single>,
    wants: &[PinSlew],
)
    requires tables { AreTablesOf design.now.netlist 1 slews.now }
    requires fits { Fits design.now.netlist nets.now }
{
    for want in wants {
        assert!(rt; slew_at(slews, design, nets, want.0, want.1, want.2) == want.3);
    }
}

fn delays_by<L: Ledger>(
    rt: &HostRuntime,
    abort: &impl Abort,
    slews: &Slews<Single>,
    design: &Design<Single>,
    nets: &NetDelays<Single>,
    wants: &[ArcDelay],
    blank: Blank,
)
    requires name { blank.name ≡ L.name }
    requires parts { blank.parts ≡ L.parts }
    requires some_part { 0 < blank.parts }
    requires tables { AreTablesOf design.now.netlist 1 slews.now }
    requires fits { Fits design.now.netlist nets.now }
{
    let mut steps = Steps::<L>::new(rt, blank);
    let with_loads = LoadedNetlist {
        linked: design.linked(),
        nets,
    };
    for want in wants {
        assert!(abort; want.0 < design.netlist().instance_count());
        assert!(abort;
            want.1
                < design
                    .cells()
                    .set(design.netlist().cell_of(want.0))
                    .arc_count()
        );
        let at = ArcAt {
            instance: want.0,
            arc: want.1,
        };
        match slews.delay(&with_loads, at, want.2, (), &mut steps) {
            Some(delay) => assert!(abort; Some(delay.0) == want.3),
            None => assert!(abort; want.3.is_none()),
        }
    }
}

/// The delays of some arcs are these.
pub fn delays_are(
    rt: &HostRuntime,
    abort: &impl Abort,
    slews: &Slews<Single>,
    design: &Design<Single>,
    nets: &NetDelays<Single>,
    wants: &[ArcDelay],
)
    requires tables { AreTablesOf design.now.netlist 1 slews.now }
    requires fits { Fits design.now.netlist nets.now }
{
    delays_by::<Brand>(rt, abort, slews, design, nets, wants, Blank::new(1))
}
