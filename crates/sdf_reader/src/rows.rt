//! The rows of delays that an SDF file says.
ghost use Rattle.std.specs.Prelude.{◌≡◌, ◌<◌, ◌+◌, ◌^◌, [], ◌∷◌, ◌++◌, length, slice_get, Some, OnOk};
ghost use Rattle.sdf_reader.specs.Sizes.{IsRowWithin};

use delay_units::Femto;
use edge_io::{OutOfMemory, Text};
use std::alloc::Global;
use std::marker::Model;

/// A value: its least, its typical and its largest time, each of which may be left out. A single number is all three.
#[derive(Clone, Copy)]
pub struct Value {
    pub min: Option<Femto>,
    pub typ: Option<Femto>,
    pub max: Option<Femto>,
}

/// One row. Names are in their canonical spelling, with `/` between the parts of a path.
#[derive(Drop)]
pub enum SdfRow {
    /// An INTERCONNECT. Its ends have the instance of their cell in front of them.
    Wire {
        from: Text,
        to: Text,
        rise: Value,
        fall: Value,
    },

    /// An IOPATH, with the type of its cell and the cell's instance, which may be empty.
    Path {
        cell: Text,
        instance: Text,
        from: Text,
        to: Text,
        rise: Value,
        fall: Value,
    },
}

/// The rows of a file, in its order: fewer than 2^32, and each of their times is at most 10^27 femtoseconds in size.
/// Contracts see the list of them.
#[derive(Drop)]
pub struct SdfRows {
    pub(crate) rows: Vec<SdfRow>,
}

impl Model for SdfRows {
    ghost use Rattle.std.specs.Prelude.{List};
    ghost use Rattle.sdf_reader.specs.Sizes.{AreWithin};
    ghost use Rattle.sdf_reader.specs.declared.rows.SdfRow.{SdfRow};

    ghost Value = { List SdfRow };

    ghost view = { λ rows. rows.rows.items };

    ghost invariant = { λ rows. AreWithin rows.rows.items };
}

impl SdfRows {
    /// No row. It takes no memory.
    pub(crate) fn new(alloc: Global) -> SdfRows
        ensures { result ≡ [] }
    {
        SdfRows {
            rows: Vec::new(alloc),
        }
    }

    /// Puts a row at the end.
    pub(crate) fn push(&mut self, row: SdfRow) -> Result<(), OutOfMemory>
        requires room { length self.old + 1 < 2 ^ 32 }
        requires within { IsRowWithin row }
        ensures { OnOk result (self.new ≡ self.old ++ row ∷ []) }
    {
        match self.rows.push(row) {
            Ok(_) => Ok(()),
            Err(_) => Err(OutOfMemory),
        }
    }

    /// How many rows there are.
    pub fn len(&self) -> usize
        ensures value { result ≡ length self.now }
        ensures few { result < 2 ^ 32 }
    {
        self.rows.len()
    }

    /// The row at a place, from 0.
    pub fn get(&self, i: usize) -> &SdfRow
        requires { i < length self.now }
        ensures value { slice_get self.now i ≡ Some result.now }
        ensures within { IsRowWithin result.now }
    {
        &self.rows[i]
    }
}
