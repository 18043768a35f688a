//! Axes, tables and lookups of the nonlinear delay model (NLDM) of Liberty: the value of a table at a slew and a load,
//! bilinear between the neighbouring points of its axes, and rounded once; and what it is past the ends of an axis. Whole numbers
//! throughout; a lookup takes no memory.
#![tactic(auto)]

mod axis;
mod between;
mod faults;
mod grain;
mod laws;
mod quotient;
mod table;

pub use axis::Axis;
pub use faults::{AxisFault, LookupEnd, Outside, TableFault, Which};
pub use grain::Grain;
pub use laws::one_lookup;
pub use table::{Order, Table};
