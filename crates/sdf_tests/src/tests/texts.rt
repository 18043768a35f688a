//! The texts of small designs, worked by hand, and what a fault leaves of one.
use super::rows::{FROM_A, FROM_B, add_fall, add_rise, add_wire, row_of};
use corner_set::{CornerSet, Grid, Pick, Single, Triple};
use delay_units::Femto;
use edge_io::{MemSink, OutOfMemory, Text};
use sdf_writer::{PathNames, Rows, WireEnd, write};
use std::alloc::Global;
use std::process::Abort;
use std::test::Fail;

/// The rows are written so.
fn are_written<C: CornerSet>(
    rt: &impl Abort,
    alloc: Global,
    rows: &Rows<C>,
    text: &[u8],
) -> Result<(), Fail> {
    let mut sink = MemSink::new(alloc, 100, 1000)?;
    assert!(rt; write(rows, &mut sink).is_ok());
    assert!(rt; sink.written() == text);
    Ok(())
}

/// A write that fails leaves a front of the text.
fn are_cut(rt: &impl Abort, alloc: Global, rows: &Rows<Single>, text: &[u8]) -> Result<(), Fail> {
    let mut sink = MemSink::new(alloc, 100, 1000)?;
    sink.fail_at(2)?;
    assert!(rt; write(rows, &mut sink).is_err());
    assert!(rt; Some(sink.written()) == text.get(..100));
    Ok(())
}

#[test]
fn without_wires_the_cell_has_no_delays(rt: HostRuntime) -> Result<(), Fail> {
    let rows = Rows::<Single>::new(rt.alloc(), Text::from_bytes(rt.alloc(), b"a\"b\\c")?);
    let text = b"(DELAYFILE
(SDFVERSION \"3.0\")
(DESIGN \"a\\\"b\\\\c\")
(PROGRAM \"gdc\")
(VERSION \"1\")
(DIVIDER /)
(TIMESCALE 1ps)
(CELL
(CELLTYPE \"a\\\"b\\\\c\")
(INSTANCE)
)
)
";
    are_written(&rt, rt.alloc(), &rows, text)
}

/// One wire at three corners.
fn add_wide(alloc: Global, rows: &mut Rows<Triple>) -> Result<(), OutOfMemory> {
    let mut delay = Grid::<Triple, Femto>::with_rows(alloc, 1, Femto(200))?;
    delay.set(0, Pick::Typ, Femto(-12_345));
    delay.set(0, Pick::Max, Femto(400));
    rows.put_wire(WireEnd::Name(b"a"), WireEnd::Name(b"z"), &delay)
}

#[test]
fn a_value_has_a_number_for_each_corner(rt: HostRuntime) -> Result<(), Fail> {
    let mut rows = Rows::new(rt.alloc(), Text::from_bytes(rt.alloc(), b"top")?);
    add_wide(rt.alloc(), &mut rows)?;
    let text = b"(DELAYFILE
(SDFVERSION \"3.0\")
(DESIGN \"top\")
(PROGRAM \"gdc\")
(VERSION \"1\")
(DIVIDER /)
(TIMESCALE 1ps)
(CELL
(CELLTYPE \"top\")
(INSTANCE)
(DELAY
(ABSOLUTE
(INTERCONNECT a z (0.200:-12.345:0.400))
)
)
)
)
";
    are_written(&rt, rt.alloc(), &rows, text)
}

/// The path through an inverter.
const INVERTER: PathNames<'static> = PathNames {
    cell: b"INV",
    instance: b"u1",
    from: b"A",
    to: b"Z",
};

/// Adds the path of the inverter.
fn add_inverter(alloc: Global, rows: &mut Rows<Single>) -> Result<(), OutOfMemory> {
    let rise = row_of(alloc, 37_500)?;
    let fall = row_of(alloc, 19_500)?;
    rows.put_path(INVERTER, Some(&rise), Some(&fall))
}

/// Two wires and three paths, of which two are of one cell.
fn add_rows(alloc: Global, rows: &mut Rows<Single>) -> Result<(), OutOfMemory> {
    add_wire(alloc, rows, b"a", b"u1/A", 0)?;
    add_wire(alloc, rows, b"u1/Z", b"z", 300)?;
    add_inverter(alloc, rows)?;
    add_fall(alloc, rows, FROM_A, 12)?;
    add_rise(alloc, rows, FROM_B, -1_500)
}

const WIRES_AND_PATHS: &[u8] = b"(DELAYFILE
(SDFVERSION \"3.0\")
(DESIGN \"top\")
(PROGRAM \"gdc\")
(VERSION \"1\")
(DIVIDER /)
(TIMESCALE 1ps)
(CELL
(CELLTYPE \"top\")
(INSTANCE)
(DELAY
(ABSOLUTE
(INTERCONNECT a u1/A (0.000))
(INTERCONNECT u1/Z z (0.300))
)
)
)
(CELL
(CELLTYPE \"INV\")
(INSTANCE u1)
(DELAY
(ABSOLUTE
(IOPATH A Z (37.500) (19.500))
)
)
)
(CELL
(CELLTYPE \"N\\\"D\\\\2\")
(INSTANCE b/u2)
(DELAY
(ABSOLUTE
(IOPATH A Z () (0.012))
(IOPATH B Z (-1.500) ())
)
)
)
)
";

#[test]
fn each_cell_has_its_paths(rt: HostRuntime) -> Result<(), Fail> {
    let mut rows = Rows::new(rt.alloc(), Text::from_bytes(rt.alloc(), b"top")?);
    add_rows(rt.alloc(), &mut rows)?;
    are_written(&rt, rt.alloc(), &rows, WIRES_AND_PATHS)?;
    are_cut(&rt, rt.alloc(), &rows, WIRES_AND_PATHS)
}
