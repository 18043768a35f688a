//! The delays of worked nets, or that there was no memory for them, and no other answer. `rt try --test --fail-alloc 1.. -- or_no_memory`
//! makes each allocation fail in turn.
ghost use Rattle.std.specs.Prelude.{◌≡◌, ◌<◌};

use corner_set::{Pick, Single};
use edge_io::Steps;
use elmore_pass::elmore_into;
use rc_tree::{ListedPins, RcTree, Scratch, TreeEnd, Workspace};
use spef_nets::{Net, SectionEnd, read_sections};
use spef_text::{HeadEnd, SpefEnd, SpefFile, parse, read_head};
use std::alloc::Global;
use std::marker::Brand;
use std::sync::ledger::{Blank, Ledger};
use std::test::Fail;

/// What comes of a net with two sinks.
#[derive(Clone, Copy)]
enum End {
    /// The delays of the sinks in units of 10^-27 s, and the load in grains.
    Delays(u128, u128, u64),
    OutOfMemory,
    Refused,
}

/// The delays of a tree.
fn delays<L: Ledger>(alloc: Global, tree: &RcTree<Single>, steps: &mut Steps<L>) -> End {
    if tree.sink_count() < 2 {
        return End::Refused;
    }
    let Ok(mut scratch) = Scratch::<Single>::reserve(alloc, tree.len()) else {
        return End::OutOfMemory;
    };
    elmore_into(tree, &mut scratch, steps);
    let first = scratch.value(tree.sink(0), (), steps);
    let second = scratch.value(tree.sink(1), (), steps);
    End::Delays(first, second, tree.load(()).0)
}

/// The delays of a net, of which the first connection drives.
fn end_of_net<L: Ledger>(rt: &HostRuntime, net: &Net<Single>, blank: Blank) -> End
    requires name { blank.name ≡ L.name }
    requires parts { blank.parts ≡ L.parts }
    requires some_part { 0 < blank.parts }
{
    if net.conn_count() == 0 {
        return End::Refused;
    }
    let alloc = rt.alloc();
    let Ok(mut tree) = RcTree::<Single>::new(alloc) else {
        return End::OutOfMemory;
    };
    let mut workspace = Workspace::new(alloc);
    let mut steps = Steps::<L>::new(rt, blank);
    let pins = ListedPins { driver: 0 };
    match tree.rebuild(alloc, &mut workspace, net, &pins, &mut steps) {
        Ok(()) => delays(alloc, &tree, &mut steps),
        Err(TreeEnd::OutOfMemory) => End::OutOfMemory,
        Err(_) => End::Refused,
    }
}

/// The delays of the first net of a file.
fn end_of_file(rt: &HostRuntime, file: &SpefFile) -> End {
    let alloc = rt.alloc();
    let head = match read_head(alloc, file) {
        Ok(head) => head,
        Err(HeadEnd::OutOfMemory) => return End::OutOfMemory,
        Err(_) => return End::Refused,
    };
    let sections = match read_sections::<Single>(alloc, file, &head, Pick::Typ) {
        Ok(sections) => sections,
        Err(SectionEnd::OutOfMemory) => return End::OutOfMemory,
        Err(_) => return End::Refused,
    };
    if sections.len() == 0 {
        return End::Refused;
    }
    end_of_net::<Brand>(rt, &sections.get(0), Blank::new(1))
}

/// The delays of the first net of a text.
fn end_of(rt: &HostRuntime, bytes: &[u8]) -> End {
    if bytes.len() >= 1 << 30 {
        return End::Refused;
    }
    match parse(rt.alloc(), bytes) {
        Ok(file) => end_of_file(rt, &file),
        Err(SpefEnd::OutOfMemory) => End::OutOfMemory,
        Err(_) => End::Refused,
    }
}

/// Whether a net has these delays and this load, or there was no memory for them.
fn may_be(end: End, wanted: (u128, u128, u64)) -> bool {
    match end {
        End::Delays(first, second, load) => {
            first == wanted.0 && second == wanted.1 && load == wanted.2
        }
        End::OutOfMemory => true,
        End::Refused => false,
    }
}

/// A net, and its delays and load by hand: 100 * 21 + 200 * 7 and 100 * 21 + 50 * 4 fs of 21 fF, and none of 15 fF at one node.
const WORKED: [(&[u8], (u128, u128, u64)); 2] = [
    (
        b"*SPEF *C_UNIT 1 FF *R_UNIT 1 OHM *D_NET n 21 *CONN *I d O *I s I *L 2 *I t I *L 3 *CAP 1 n:1 10 2 s 5 3 t 1 *RES 1 d n:1 100 2 n:1 s 200 3 n:1 t 50 *END",
        (3_500_000_000_000_000, 2_300_000_000_000_000, 21_000_000),
    ),
    (
        b"*SPEF *C_UNIT 1 FF *R_UNIT 1 OHM *D_NET n 15 *CONN *I d O *I s I *L 2 *I t I *L 3 *CAP 1 n:1 10 *END",
        (0, 0, 15_000_000),
    ),
];

#[test]
fn worked_nets_or_no_memory(rt: HostRuntime) -> Result<(), Fail> {
    for (bytes, wanted) in &WORKED {
        assert!(rt; may_be(end_of(&rt, bytes), *wanted));
    }
    Ok(())
}
