//! One tree and one workspace serve net after net, at three corners. The answers were worked by hand.
ghost use Rattle.std.specs.Prelude.{◌≡◌, ◌<◌, None};
ghost use Rattle.rc_tree.specs.PinNames.{pin_name};

use corner_set::{Grid, Pick, Triple};
use delay_units::Farads;
use edge_io::Steps;
use elmore_pass::{elmore_into, sink_femto};
use rc_tree::{PinLoads, PinName, RcTree, Scratch, TreeEnd, Workspace};
use spef_nets::{Sections, read_sections};
use spef_text::{parse, read_head};
use std::alloc::Global;
use std::marker::Brand;
use std::sync::ledger::{Blank, Ledger};
use std::test::Fail;

const NETS: &[u8] = b"*SPEF *C_UNIT 1 FF *R_UNIT 1 OHM
*D_NET m 0 *CONN *I d O *I s I *I t I *RES 1 d s 10 2 s t 10 3 t d 10 *END
*D_NET k 0 *RES 1 d s 1 2 d s 1 3 t d 1 *END
*D_NET l 10 *CONN *I d O *I s I *CAP 1 l:1 10 *END
*D_NET p 10 *CONN *I d O *I s I *I stranger I *CAP 1 p:1 10 *END
*D_NET u 10 *CONN *I d O *CAP 1 u:1 10 *RES 1 d s 1 2 s t 1 *END
*D_NET n 26 *CONN *I d O *I s I *I t I *CAP 1 n:1 10:20:30 2 s 5 3 t 1 *RES 1 d n:1 100 2 n:1 s 200:400:600 3 n:1 t 50 *END
";

/// How the building of the tree of each of these nets ends: 0 a tree, 1 a strange pin, 2 too large, 3 unreached, 4 a mesh, 5 no memory;
/// and a number: of nodes, of the bytes of the name's head, or of the resistor.
const ENDS: [(u8, usize); 6] = [(4, 1), (4, 0), (0, 1), (1, 8), (3, 1), (0, 4)];

/// The delays of the two sinks of the last of these nets in units of 10^-27 s, and its load in grains, at each corner. The sinks have
/// loads of 2 fF: at the least corner 100 * 20 + 200 * 7 and 100 * 20 + 50 * 3 fs of 20 fF, and so on.
const DELAYS: [(Pick, u128, u128, u64); 3] = [
    (
        Pick::Min,
        3_400_000_000_000_000,
        2_150_000_000_000_000,
        20_000_000,
    ),
    (
        Pick::Typ,
        5_800_000_000_000_000,
        3_150_000_000_000_000,
        30_000_000,
    ),
    (
        Pick::Max,
        8_200_000_000_000_000,
        4_150_000_000_000_000,
        40_000_000,
    ),
];

/// A pin that is named by a head alone.
fn port<'p>(head: &'p [u8]) -> PinName<'p>
    ensures head { (pin_name result).head ≡ head.now }
    ensures tail { (pin_name result).tail ≡ None }
{
    PinName {
        head,
        tail: None,
        head_sdf: head,
    }
}

/// The driver `d`, and the sinks `s` and `t` with a load of 2 fF each.
fn pins(alloc: Global) -> Option<PinLoads<'static, Triple>> {
    let Ok(load) = Grid::<Triple, Farads>::with_rows(alloc, 1, Farads(2_000_000)) else {
        return None;
    };
    let Ok(mut pins) = PinLoads::<Triple>::with_room(alloc, port(b"d"), 2) else {
        return None;
    };
    let Ok(()) = pins.add(port(b"s"), &load, 0) else {
        return None;
    };
    let Ok(()) = pins.add(port(b"t"), &load, 0) else {
        return None;
    };
    Some(pins)
}

fn told(ending: &Result<(), TreeEnd>, nodes: usize) -> (u8, usize) {
    match ending {
        Ok(()) => (0, nodes),
        Err(TreeEnd::StrangePin(name)) => (1, name.head.len()),
        Err(TreeEnd::TooLarge) => (2, 0),
        Err(TreeEnd::Unreached(name)) => (3, name.head.len()),
        Err(TreeEnd::Mesh(place)) => (4, *place),
        Err(TreeEnd::OutOfMemory) => (5, 0),
    }
}

/// Whether the building of each net's tree ends as it should. The tree of the last one is left.
fn end_so<L: Ledger>(
    alloc: Global,
    sections: &Sections<Triple>,
    pins: &PinLoads<Triple>,
    tree: &mut RcTree<Triple>,
    steps: &mut Steps<L>,
) -> bool {
    let mut workspace = Workspace::new(alloc);
    for place in 0..sections.len() {
        let net = sections.get(place);
        let ending = tree.rebuild(alloc, &mut workspace, &net, pins, steps);
        if place >= ENDS.len() || told(&ending, tree.len()) != ENDS[place] {
            return false;
        }
    }
    sections.len() == ENDS.len()
}

/// Whether the tree has the delays and the load of the last net.
fn has_delays<L: Ledger>(alloc: Global, tree: &RcTree<Triple>, steps: &mut Steps<L>) -> bool {
    if tree.sink_count() != 2 {
        return false;
    }
    let Ok(mut scratch) = Scratch::<Triple>::reserve(alloc, tree.len()) else {
        return false;
    };
    elmore_into(tree, &mut scratch, steps);
    for (corner, first, second, load) in DELAYS {
        if scratch.value(tree.sink(0), corner, steps) != first
            || scratch.value(tree.sink(1), corner, steps) != second
            || tree.load(corner).0 != load
        {
            return false;
        }
    }
    true
}

fn are_right<L: Ledger>(rt: &HostRuntime, sections: &Sections<Triple>, blank: Blank) -> bool
    requires name { blank.name ≡ L.name }
    requires parts { blank.parts ≡ L.parts }
    requires some_part { 0 < blank.parts }
{
    let alloc = rt.alloc();
    let Some(pins) = pins(alloc) else {
        return false;
    };
    let Ok(mut tree) = RcTree::<Triple>::new(alloc) else {
        return false;
    };
    let mut steps = Steps::<L>::new(rt, blank);
    end_so(alloc, sections, &pins, &mut tree, &mut steps) && has_delays(alloc, &tree, &mut steps)
}

fn nets_are_right(rt: &HostRuntime) -> bool {
    let alloc = rt.alloc();
    let Ok(file) = parse(alloc, NETS) else {
        return false;
    };
    let Ok(head) = read_head(alloc, &file) else {
        return false;
    };
    match read_sections::<Triple>(alloc, &file, &head, Pick::Typ) {
        Ok(sections) => are_right::<Brand>(rt, &sections, Blank::new(1)),
        Err(_) => false,
    }
}

#[test]
fn one_tree_serves_net_after_net(rt: HostRuntime) -> Result<(), Fail> {
    assert!(rt; nets_are_right(&rt));
    assert!(rt; sink_femto(2_299_500_000_000_000).0 == 2_300);
    Ok(())
}
