//! What the heads of small files say, and what their references name. The expected answers are those of another reader,
//! and those that surprise were worked by hand.
ghost use Rattle.std.specs.Prelude.{◌<◌, ◌^◌, length};
ghost use Rattle.spef_text.specs.Heads.{IsHeadOf};

use delay_units::Unit;
use edge_io::Text;
use name_table::NodeName;
use spef_text::{Head, HeadEnd, ResolveEnd, SpefFile, parse, read_head};
use std::alloc::Global;
use std::test::Fail;

/// A file, its design, and the digits and the exponents of its units of capacitances and of resistances.
const HEADS: [(&[u8], &[u8], u32, i32, u32, i32); 6] = [
    (b"*SPEF", b"", 1, 6, 1, 6),
    (b"*SPEF *DESIGN a *DESIGN \"top x\" y", b"top x", 1, 6, 1, 6),
    (b"*SPEF *C_UNIT 1.5 FF *R_UNIT 1 OHM", b"", 15, 5, 1, 6),
    (b"*SPEF *C_UNIT 1 pF *R_UNIT 1e-3 oHm", b"", 1, 9, 1, 3),
    (
        b"*SPEF *C_UNIT 1 F *C_UNIT 1 PF *R_UNIT 0 OHM *R_UNIT 1 OHM",
        b"",
        1,
        9,
        1,
        6,
    ),
    (b"*SPEF *C_UNIT 0.1e-99 FF", b"", 1, -94, 1, 6),
];

/// A file whose head is refused, whether for a unit or else for an index that stands twice, and the token that tells it.
const REFUSED: [(&[u8], bool, u64); 9] = [
    (b"*SPEF *C_UNIT 1 PF *D_NET n 1 *END", true, 0),
    (b"*SPEF *C_UNIT 0 PF", true, 3),
    (b"*SPEF *C_UNIT 12345678 PF", true, 3),
    (b"*SPEF *C_UNIT 1e-106 FF", true, 3),
    (b"*SPEF *R_UNIT 1 MOHM", true, 3),
    (b"*SPEF *R_UNIT 0 OHM *C_UNIT 0 FF", true, 6),
    (b"*SPEF *NAME_MAP *1 a *1 b *R_UNIT 0 OHM", true, 8),
    (b"*SPEF *NAME_MAP *1 a *2 b *01 c", false, 7),
    (b"*SPEF *NAME_MAP *1 a *NAME_MAP *1 a", false, 6),
];

fn has(unit: &Unit, mantissa: u32, exponent: i32) -> bool {
    unit.mantissa == mantissa && unit.exponent == exponent
}

fn says(alloc: Global, row: &(&[u8], &[u8], u32, i32, u32, i32)) -> bool
    requires { length row.now.0.now < 2 ^ 30 }
{
    let Ok(file) = parse(alloc, row.0) else {
        return false;
    };
    match read_head(alloc, &file) {
        Ok(head) => {
            head.design().bytes() == row.1
                && has(&head.cap_unit(), row.2, row.3)
                && has(&head.res_unit(), row.4, row.5)
        }
        Err(_) => false,
    }
}

#[test]
fn heads_are_read(rt: HostRuntime) -> Result<(), Fail> {
    for row in &HEADS {
        assert!(rt; row.0.len() < 1 << 20);
        assert!(rt; says(rt.alloc(), row));
    }
    Ok(())
}

/// The token of a refusal, and whether it is one of a unit.
fn refusal(alloc: Global, bytes: &[u8]) -> Option<(bool, u64)>
    requires { length bytes.now < 2 ^ 30 }
{
    let Ok(file) = parse(alloc, bytes) else {
        return None;
    };
    match read_head(alloc, &file) {
        Err(HeadEnd::BadUnit { token }) => Some((true, token)),
        Err(HeadEnd::RepeatedIndex { token }) => Some((false, token)),
        _ => None,
    }
}

#[test]
fn heads_are_refused(rt: HostRuntime) -> Result<(), Fail> {
    for (bytes, unit, token) in &REFUSED {
        assert!(rt; bytes.len() < 1 << 20);
        assert!(rt; refusal(rt.alloc(), bytes) == Some((*unit, *token)));
    }
    Ok(())
}

const REFERENCES: &[u8] = b"*SPEF *DIVIDER . *DELIMITER : *BUS_DELIMITER < >
*C_UNIT 1 PF *R_UNIT 1 OHM *NAME_MAP *1 u1.a:b<3> *02 n\\:x *30 p
*D_NET *1 1 *CONN *I *1:Z I *I *001:A:B O *P *2 I *I u2.x:Y<1> O *P *30 I *I a:b:c I *P *4 O *I *30:q\\<1 I *END
*D_NET *30:x 1 *END *D_NET v:w 2 *END *D_NET *4:x 1 *END";

/// A token of these, whether it is cut, its head, its tail and its spelling.
const NODES: [(u64, bool, &[u8], Option<&[u8]>, &[u8]); 6] = [
    (23, false, b"u1/a:b[3]", None, b"u1/a\\:b[3]"),
    (30, true, b"u1/a:b[3]", Some(b"A:B"), b"u1/a\\:b[3]/A\\:B"),
    (36, true, b"u2/x", Some(b"Y[1]"), b"u2/x/Y[1]"),
    (42, true, b"a:b", Some(b"c"), b"a\\:b/c"),
    (48, true, b"p", Some(b"q<1"), b"p/q\\<1"),
    (52, false, b"p:x", None, b"p\\:x"),
];

fn is_tail(tail: &Option<Text>, wanted: Option<&[u8]>) -> bool {
    match (tail, wanted) {
        (None, None) => true,
        (Some(text), Some(bytes)) => text.bytes() == bytes,
        _ => false,
    }
}

fn is_node(node: &NodeName, row: &(u64, bool, &[u8], Option<&[u8]>, &[u8])) -> bool {
    node.head.bytes() == row.2 && is_tail(&node.tail, row.3) && node.sdf.bytes() == row.4
}

/// Whether the references of that file name what they should.
fn are_resolved(alloc: Global, file: &SpefFile, head: &Head) -> bool
    requires { IsHeadOf file.now head.now }
{
    for row in &NODES {
        match head.resolve(alloc, file, row.0, row.1) {
            Ok(node) => {
                if !is_node(&node, row) {
                    return false;
                }
            }
            Err(_) => return false,
        }
    }
    matches!(
        head.resolve(alloc, file, 45, true),
        Err(ResolveEnd::UnknownIndex { token: 45 })
    )
}

fn resolves(alloc: Global) -> bool {
    let Ok(file) = parse(alloc, REFERENCES) else {
        return false;
    };
    match read_head(alloc, &file) {
        Ok(head) => are_resolved(alloc, &file, &head),
        Err(_) => false,
    }
}

#[test]
fn references_are_resolved(rt: HostRuntime) -> Result<(), Fail> {
    assert!(rt; resolves(rt.alloc()));
    Ok(())
}
