//! Why there is no timing model of a cell.
ghost use Rattle.std.specs.Prelude.{◌≡◌};

use edge_io::OutOfMemory;

/// Why a cell of a library has no timing model. Of several faults that which is looked for first is answered: those of the
/// units, then those of each pin in order, then those of each delay group in order.
#[derive(Clone, Copy)]
pub enum CellFault {
    /// The library has no `cell` group with this first argument.
    NoSuchCell,

    /// `time_unit` is none of `1ps`, `10ps`, `100ps` and `1ns`, or `capacitive_load_unit` is missing or is no positive number of `ff` or
    /// `pf`.
    BadUnit,

    /// The `direction` of a pin is missing, or none of `input`, `output`, `inout` and `internal`.
    BadDirection,

    /// A number that is no decimal literal of at most 30 significant digits, or a value past its bound.
    BadNumber,

    /// A name in `related_pin` is no pin of the cell.
    UnknownRelatedPin,

    /// A table names no template of the library.
    UnknownTemplate,

    /// A template's variables are not the slew of the input and the load of the output, each at most once.
    UnknownVariable,

    /// The points of an axis are none, too many, not rising, negative, or past their bound.
    BadAxis,

    /// A table has not as many values as its axes have points, multiplied.
    BadTable,

    /// A delay table without the transition table of its edge.
    NoTransition,

    /// A transition below 0.
    NegativeTransition,

    /// There was no memory for the model.
    OutOfMemory,
}

impl From<OutOfMemory> for CellFault {
    ghost use Rattle.std.specs.Prelude.{◌≡◌};
    ghost use Rattle.liberty_tables.specs.declared.faults.CellFault.TheVariants.{OutOfMemory};

    ghost from_gives = { λ _ fault. fault ≡ OutOfMemory };

    fn from(_end: OutOfMemory) -> CellFault {
        CellFault::OutOfMemory
    }
}
