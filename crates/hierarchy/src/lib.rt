//! The hierarchy of a netlist (IEEE 1364-2005): the walk through the modules of a design, whether it ends within the limits, and the
//! cells that the design uses.
#![tactic(auto)]

mod instance_cells;
mod laws;
mod lowers;
mod naming;
mod ordering;
mod passes;
mod uses;
mod walking;

pub use instance_cells::InstanceCells;
pub use laws::one_use;
pub use uses::{Count, UseEnd, used_cells};
pub use walking::{MetInstance, Visit, Walk, walk_modules};
