//! The phases that read a SPEF file, up to the rows of its wires. Each answers a value, or refuses.
#![tactic(auto)]

mod laws;
mod net_pins;
mod net_rows;
mod spef_phases;
mod wire_rows;

pub use laws::one_reading;
pub use spef_phases::{head_of, nets_of, parse_spef};
pub use wire_rows::wire_rows_of_file;
