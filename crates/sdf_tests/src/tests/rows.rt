//! Rows of wires and of paths.
ghost use Rattle.std.specs.Prelude.{◌≡◌, ◌≤◌, ◌^◌, unsigned_abs, length, IfOk};
ghost use Rattle.sdf_writer.specs.Bounds.{AreWithin};

use corner_set::{Grid, Single};
use delay_units::Femto;
use edge_io::OutOfMemory;
use sdf_writer::{PathNames, Rows, WireEnd};
use std::alloc::Global;

/// One row with this time.
pub fn row_of(alloc: Global, femtoseconds: i128) -> Result<Grid<Single, Femto>, OutOfMemory>
    requires { unsigned_abs femtoseconds ≤ 10 ^ 27 }
    ensures { IfOk result (λ grid. (length grid.values ≡ 1) × AreWithin grid.values) }
{
    Grid::<Single, Femto>::with_rows(alloc, 1, Femto(femtoseconds))
}

/// Adds a wire of one corner.
pub fn add_wire(
    alloc: Global,
    rows: &mut Rows<Single>,
    from: &[u8],
    to: &[u8],
    femtoseconds: i128,
) -> Result<(), OutOfMemory>
    requires { unsigned_abs femtoseconds ≤ 10 ^ 27 }
{
    let delay = row_of(alloc, femtoseconds)?;
    rows.put_wire(WireEnd::Name(from), WireEnd::Name(to), &delay)
}

/// Adds a path of one corner that only rises.
pub fn add_rise(
    alloc: Global,
    rows: &mut Rows<Single>,
    names: PathNames<'_>,
    femtoseconds: i128,
) -> Result<(), OutOfMemory>
    requires { unsigned_abs femtoseconds ≤ 10 ^ 27 }
{
    let rise = row_of(alloc, femtoseconds)?;
    rows.put_path(names, Some(&rise), None)
}

/// Adds a path of one corner that only falls.
pub fn add_fall(
    alloc: Global,
    rows: &mut Rows<Single>,
    names: PathNames<'_>,
    femtoseconds: i128,
) -> Result<(), OutOfMemory>
    requires { unsigned_abs femtoseconds ≤ 10 ^ 27 }
{
    let fall = row_of(alloc, femtoseconds)?;
    rows.put_path(names, None, Some(&fall))
}

/// A path through a cell of two inputs, from the first.
pub const FROM_A: PathNames<'static> = PathNames {
    cell: b"N\"D\\2",
    instance: b"b/u2",
    from: b"A",
    to: b"Z",
};

/// The other path through that cell.
pub const FROM_B: PathNames<'static> = PathNames {
    cell: b"N\"D\\2",
    instance: b"b/u2",
    from: b"B",
    to: b"Z",
};
