//! What the sections of small files say, and what they are refused for. The nets were worked by hand.
ghost use Rattle.std.specs.Prelude.{◌≡◌, ◌<◌, ◌^◌, length};

use corner_set::{Pick, Single};
use edge_io::Steps;
use spef_nets::{Net, SectionEnd, read_sections};
use spef_text::{parse, read_head};
use std::alloc::Global;
use std::marker::Brand;
use std::sync::ledger::{Blank, Ledger};
use std::test::Fail;

/// A net with one connection as it is read at the corner of a run: the spelling of its first node in SDF, its capacitances by
/// node, its resistance and the connection's load in grains.
struct Read {
    bytes: &'static [u8],
    pick: Pick,
    first: &'static [u8],
    caps: [(usize, u64); 2],
    ohms: u64,
    load: u64,
}

/// The last net of each of these files. The values were worked by hand.
const READ: [Read; 4] = [
    // A coupling by its far node, which does not belong, and one to ground. The second line of a connection does not count.
    Read {
        bytes: b"*SPEF *C_UNIT 1 PF *R_UNIT 1 OHM *D_NET x 1 *CONN *I x:1 O *L 1:2:3 *I x:1 I *L 1e200 *CAP 1 y:1 x:1 0.5 2 x:1 1 *RES 1 x:1 x:2 7 *END",
        pick: Pick::Typ,
        first: b"x/1",
        caps: [(0, 500_000_000), (0, 1_000_000_000)],
        ohms: 7_000_000,
        load: 2_000_000_000,
    },
    // A coupling both of whose nodes belong; the units in other letters, and 1.5 of them.
    Read {
        bytes: b"*SPEF *C_UNIT 1.5 FF *R_UNIT 1 KOHM *D_NET x 1 *CONN *I x:1 O *CAP 1 x:1 x:2 2 *RES 1 x:1 x:2 7 *END",
        pick: Pick::Min,
        first: b"x/1",
        caps: [(0, 3_000_000), (1, 3_000_000)],
        ohms: 7_000_000_000,
        load: 0,
    },
    // A net and a node by an index and as they are spelled; an index that is no name's stands in no place that is read.
    Read {
        bytes: b"*SPEF *C_UNIT 1 FF *R_UNIT 1 OHM *NAME_MAP *1 a/n *D_NET *1 1 *CONN *N *9 *I *1:1 O *CAP 1 *1:1 1 2 a/n:1 1:2:3 *RES 1 a/n:1 *1:2 5:6:7 *END",
        pick: Pick::Max,
        first: b"a/n/1",
        caps: [(0, 1_000_000), (0, 3_000_000)],
        ohms: 7_000_000,
        load: 0,
    },
    // One node in two spellings: that of its first place counts, though the resistors are looked at before.
    Read {
        bytes: b"*SPEF *C_UNIT 1 FF *R_UNIT 1 OHM *D_NET x 1 *CONN *I a\\/b:Z O *CAP 1 a/b:Z 1 2 x:1 2 *RES 1 a/b:Z x:1 7 *END",
        pick: Pick::Typ,
        first: b"a\\/b/Z",
        caps: [(0, 1_000_000), (1, 2_000_000)],
        ohms: 7_000_000,
        load: 0,
    },
];

/// Whether a net has the elements of a row.
fn has_elements<L: Ledger>(rt: &HostRuntime, net: &Net<Single>, row: &Read, blank: Blank) -> bool
    requires name { blank.name ≡ L.name }
    requires parts { blank.parts ≡ L.parts }
    requires some_part { 0 < blank.parts }
{
    let mut steps = Steps::<L>::new(rt, blank);
    if net.conn_count() != 1 || net.cap_count() != 2 || net.res_count() != 1 {
        return false;
    }
    let one = net.cap(0, (), &mut steps);
    let two = net.cap(1, (), &mut steps);
    let joint = net.res(0, (), &mut steps);
    one.0 == row.caps[0].0
        && one.1.0 == row.caps[0].1
        && two.0 == row.caps[1].0
        && two.1.0 == row.caps[1].1
        && joint.ohms.0 == row.ohms
        && net.conn_load(0, ()).0 == row.load
}

/// Whether the first node of a net is spelled so in SDF.
fn begins_with(alloc: Global, net: &Net<Single>, first: &[u8]) -> bool {
    if net.node_count() == 0 {
        return false;
    }
    let (Ok(name), Ok(sdf)) = (net.node_name(alloc, 0), net.node_sdf(alloc, 0)) else {
        return false;
    };
    name.sdf.bytes() == first && sdf.bytes() == first
}

fn is_as(rt: &HostRuntime, net: &Net<Single>, row: &Read) -> bool {
    begins_with(rt.alloc(), net, row.first) && has_elements::<Brand>(rt, net, row, Blank::new(1))
}

/// Whether the last net of a row's file is as the row says.
fn is_read(rt: &HostRuntime, row: &Read) -> bool
    requires { length row.now.bytes.now < 2 ^ 30 }
{
    let alloc = rt.alloc();
    let Ok(file) = parse(alloc, row.bytes) else {
        return false;
    };
    let Ok(head) = read_head(alloc, &file) else {
        return false;
    };
    let Ok(sections) = read_sections::<Single>(alloc, &file, &head, row.pick) else {
        return false;
    };
    let count = sections.len();
    count > 0 && is_as(rt, &sections.get(count - 1), row)
}

#[test]
fn nets_are_read(rt: HostRuntime) -> Result<(), Fail> {
    for row in &READ {
        assert!(rt; row.bytes.len() < 1 << 20);
        assert!(rt; is_read(&rt, row));
    }
    Ok(())
}

/// Why a file whose text and head are sound has no nets, or nothing where it has them.
fn refusal_of(alloc: Global, bytes: &[u8]) -> Option<SectionEnd>
    requires { length bytes.now < 2 ^ 30 }
{
    let file = parse(alloc, bytes).ok()?;
    let head = read_head(alloc, &file).ok()?;
    read_sections::<Single>(alloc, &file, &head, Pick::Typ).err()
}

/// The token of a refusal, and which it is of those at one token.
fn fault(alloc: Global, bytes: &[u8]) -> Option<(u64, u8)>
    requires { length bytes.now < 2 ^ 30 }
{
    match refusal_of(alloc, bytes)? {
        SectionEnd::UnknownIndex { token } => Some((token, 0)),
        SectionEnd::BadNumber { token } => Some((token, 1)),
        SectionEnd::ValueTooLarge { token } => Some((token, 2)),
        SectionEnd::RepeatedNet { net: _, token } => Some((token, 3)),
        SectionEnd::ForeignCoupling { net: _, token } => Some((token, 4)),
        SectionEnd::OutOfMemory => Some((0, 5)),
    }
}

/// A file, and what is told of it: nothing, or a token and which fault. The expected refusals are those of another reader.
const ENDS: [(&[u8], Option<(u64, u8)>); 8] = [
    (
        b"*SPEF *C_UNIT 1 PF *R_UNIT 1 OHM *NAME_MAP *1 n *D_NET n 1 *CAP 1 n 1000.000001 *END",
        Some((17, 2)),
    ),
    (
        b"*SPEF *C_UNIT 1 PF *R_UNIT 1 OHM *NAME_MAP *1 n *D_NET n 1 *END *D_NET *1 1 *END",
        Some((16, 3)),
    ),
    (
        b"*SPEF *C_UNIT 1 PF *R_UNIT 1 OHM *NAME_MAP *1 n *D_NET *2 1 *CAP 1 n -1 *END",
        Some((12, 0)),
    ),
    (
        b"*SPEF *C_UNIT 1 PF *R_UNIT 1 OHM *NAME_MAP *1 n *D_NET *1 1 *CAP 1 a:1 b:1 1 2 n:1 1:-1:1e99 *RES 1 a:1 *3 1 *END",
        Some((21, 1)),
    ),
    (
        b"*SPEF *C_UNIT 1 PF *R_UNIT 1 OHM *NAME_MAP *1 n *D_NET *1 1 *CAP 1 c:1 *3:1 1 *END",
        Some((16, 4)),
    ),
    (
        b"*SPEF *C_UNIT 1 PF *R_UNIT 1 OHM *NAME_MAP *1 n *D_NET *1 1 *CAP 1 n:1 *3:1 1 *END",
        Some((17, 0)),
    ),
    (
        b"*SPEF *C_UNIT 1 PF *R_UNIT 1 OHM *NAME_MAP *1 n *D_NET *1 -5e999 *CONN *N *3 *I a:1 I *I a:1 O *L -1 *END",
        None,
    ),
    (
        b"*SPEF *C_UNIT 1 PF *R_UNIT 1 OHM *NAME_MAP *1 n *D_NET *1 1 *RES 1 a:1 b:1 100000000.0000005:1:-1 *END",
        Some((18, 1)),
    ),
];

#[test]
fn faults_are_told_by_the_least_token(rt: HostRuntime) -> Result<(), Fail> {
    for row in &ENDS {
        assert!(rt; row.0.len() < 1 << 20);
        assert!(rt; fault(rt.alloc(), row.0) == row.1);
    }
    Ok(())
}
