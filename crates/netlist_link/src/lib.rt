//! The flat netlist of a design: instances of cells, nets with their drivers and sinks, and ports (IEEE 1364-2005).
#![tactic(auto)]

mod assembling;
mod cell_pins;
mod cell_places;
mod checking;
mod design_tables;
mod ends;
mod flat_bits;
mod flat_names;
mod grouping;
mod instance_names;
mod instances;
mod laws;
mod linked;
mod linking;
mod name_clashes;
mod net_ends;
mod net_naming;
mod netlist;
mod port_numbers;
mod ports;

pub use ends::{End, LinkEnd};
pub use hierarchy::{Count, UseEnd, used_cells};
pub use laws::one_flat_design;
pub use linked::LinkedNetlist;
pub use linking::flatten_and_link;
pub use netlist::Netlist;
