//! Rows that are written, read and told. The lines are another program's, which was given the text.
use super::files::tells;
use super::rows::{FROM_A, FROM_B, add_fall, add_rise, add_wire};
use corner_set::Single;
use edge_io::{MemSink, OutOfMemory, Text};
use sdf_writer::{Rows, write};
use std::alloc::Global;
use std::test::Fail;

/// Two wires with names that are not all well spelled, and two paths of a cell that each have one edge.
fn add_rows(alloc: Global, rows: &mut Rows<Single>) -> Result<(), OutOfMemory> {
    add_wire(alloc, rows, b"a\\.b/", b"u1/A[3]", 300)?;
    add_wire(alloc, rows, b"/Z", b"z[", -12_345)?;
    add_fall(alloc, rows, FROM_A, 37_500)?;
    add_rise(alloc, rows, FROM_B, -1_000_000_000_000_000_000_000_000_000)
}

const LINES: &[u8] = b"wire a\\.b/ u1/A[3] 0.300
wire /Z z[ -12.345
path b/u2 A Z - 37.500
path b/u2 B Z -1000000000000000000000000.000 -
wires 2 paths 2 sum -999999999999999999999974.545 largest 37.500
";

#[test]
fn what_is_written_is_read(rt: HostRuntime) -> Result<(), Fail> {
    let mut rows = Rows::new(rt.alloc(), Text::from_bytes(rt.alloc(), b"to\"p")?);
    add_rows(rt.alloc(), &mut rows)?;
    let mut text = MemSink::new(rt.alloc(), 1000, 1000)?;
    assert!(rt; write(&rows, &mut text).is_ok());
    tells(&rt, rt.alloc(), text.written(), LINES)
}
