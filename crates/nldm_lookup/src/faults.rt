//! Why there is no axis, no table, or no value.

use thiserror::Error;

/// Why some points are no axis. They are asked in this order: `Empty`, `TooLong`, `NotRising`.
#[derive(Clone, Copy, Debug, Error)]
pub enum AxisFault {
    /// There is no point.
    #[error("an axis without a point")]
    Empty,

    /// The first place, from 0, whose point is not above the one before.
    #[error("the point at place {0} is not above the one before")]
    NotRising(usize),

    /// There are more than 256 points.
    #[error("an axis of more than 256 points")]
    TooLong,

    /// There was no memory for the points.
    #[error("out of memory")]
    OutOfMemory,
}

/// Why some values are no table over two axes.
#[derive(Clone, Copy, Debug, Error)]
pub enum TableFault {
    /// There are not as many values as the axes have points, multiplied.
    #[error("a table of {got} values, where the axes want {want}")]
    ValueCount { want: usize, got: usize },

    /// There was no memory for the values.
    #[error("out of memory")]
    OutOfMemory,
}

/// An axis of a table.
#[derive(Clone, Copy)]
pub enum Which {
    Slew,
    Load,
}

/// A quantity that a table does not reach: its axis, and the quantity in grains, attoseconds of a slew and 10^-21 F of a load.
#[derive(Clone, Copy)]
pub struct Outside {
    pub axis: Which,
    pub value: u64,
}

/// Why a lookup has no value.
#[derive(Clone, Copy)]
pub enum LookupEnd {
    /// A quantity is past an axis, and `Beyond::Refuse` is asked for.
    Outside(Outside),

    /// `Beyond::Extend` leads past a microsecond: the value is more in size, or the load is past its axis and more than a nanofarad.
    PastTime,
}
